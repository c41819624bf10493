// The worked rows of requests.
use serve_requests::SessionEnd;

/// A request, how its session ends, the status line without its version, and the body of the answer; no status where
/// nothing is answered.
#[derive(Clone, Copy)]
pub struct Row {
    pub request: &'static [u8],
    pub end: SessionEnd,
    pub status: &'static str,
    pub body: &'static str,
}

/// The worked rows of requests, in the order in which a desk is asked them that kept nothing before.
pub const ROWS: [Row; 26] = [
    Row {
        request: b"GET /health HTTP/1.1\r\n\r\n",
        end: SessionEnd::Answered(200),
        status: "200 OK",
        body: "{\"last_day\":0}",
    },
    Row {
        request: b"GET /days/100 HTTP/1.1\r\n\r\n",
        end: SessionEnd::Answered(404),
        status: "404 Not Found",
        body: "{\"error\":\"no day\"}",
    },
    Row {
        request: b"GET /days/7 HTTP/1.1\r\n\r\n",
        end: SessionEnd::Answered(404),
        status: "404 Not Found",
        body: "{\"error\":\"no path\"}",
    },
    Row {
        request: b"GET /nothing HTTP/1.1\r\n\r\n",
        end: SessionEnd::Answered(404),
        status: "404 Not Found",
        body: "{\"error\":\"no path\"}",
    },
    Row {
        request: b"DELETE /days/100 HTTP/1.1\r\n\r\n",
        end: SessionEnd::Answered(405),
        status: "405 Method Not Allowed",
        body: "{\"error\":\"method\"}",
    },
    Row {
        request: b"POST /days/100 HTTP/1.1\r\n\r\n",
        end: SessionEnd::Answered(411),
        status: "411 Length Required",
        body: "{\"error\":\"length needed\"}",
    },
    Row {
        request: b"POST /days/100 HTTP/1.1\r\nContent-Length: 4000000001\r\n\r\n",
        end: SessionEnd::Answered(413),
        status: "413 Payload Too Large",
        body: "{\"error\":\"too long\"}",
    },
    Row {
        request: b"POST /days/100 HTTP/1.1\r\nContent-Length: x\r\n\r\n",
        end: SessionEnd::Answered(400),
        status: "400 Bad Request",
        body: "{\"error\":\"length\"}",
    },
    Row {
        request: b"GET /live HTTP/1.1\r\n\r\n",
        end: SessionEnd::Answered(200),
        status: "200 OK",
        body: "{\"as_of\":0,\"day\":0,\"total\":0}",
    },
    Row {
        request: b"POST /days/100 HTTP/1.1\r\nContent-Length: 128\r\n\r\n0,10,1,30,0,1,0,10,52800,-1,-1,-1,-1,-1,-1\n\
            0,10,2,30,0,1,0,10,52800,-1,-1,-1,-1,-1,-1\n0,9,3,30,0,1,0,10,52800,-1,-1,-1,-1,-1,-1\n",
        end: SessionEnd::Answered(422),
        status: "422 Unprocessable Entity",
        body: "{\"cause\":\"late 10 9\",\"error\":\"refused\",\"line\":3}",
    },
    Row {
        request: b"GET /live HTTP/1.1\r\n\r\n",
        end: SessionEnd::Answered(200),
        status: "200 OK",
        body: "{\"as_of\":2,\"day\":100,\"total\":0}",
    },
    Row {
        request: b"POST /days/100 HTTP/1.1\r\nContent-Length: 5\r\n\r\n\n\n\n",
        end: SessionEnd::Cut,
        status: "",
        body: "",
    },
    Row {
        request: b"GET",
        end: SessionEnd::Cut,
        status: "",
        body: "",
    },
    Row {
        request: b"\0",
        end: SessionEnd::Answered(400),
        status: "400 Bad Request",
        body: "{\"error\":\"head\"}",
    },
    Row {
        request: b"GET /days/100 HTTP/1.1\r\n\r\n",
        end: SessionEnd::Answered(404),
        status: "404 Not Found",
        body: "{\"error\":\"no day\"}",
    },
    Row {
        request: b"POST /days/100 HTTP/1.1\r\nContent-Length: 0\r\n\r\n",
        end: SessionEnd::Answered(200),
        status: "200 OK",
        body: "{\"bytes\":0,\"day\":100,\
            \"digest\":\"e3b0c44298fc1c149afbf4c8996fb92427ae41e4649b934ca495991b7852b855\",\"notices\":0,\
            \"notices_digest\":\"e3b0c44298fc1c149afbf4c8996fb92427ae41e4649b934ca495991b7852b855\",\
            \"outcome\":\"stored\",\"tariffs\":\"e3b0c44298fc1c149afbf4c8996fb92427ae41e4649b934ca495991b7852b855\",\
            \"total\":0,\"tuples\":0}",
    },
    Row {
        request: b"POST /days/100 HTTP/1.1\r\nContent-Length: 0\r\n\r\nmore",
        end: SessionEnd::Answered(200),
        status: "200 OK",
        body: "{\"bytes\":0,\"day\":100,\
            \"digest\":\"e3b0c44298fc1c149afbf4c8996fb92427ae41e4649b934ca495991b7852b855\",\"notices\":0,\
            \"notices_digest\":\"e3b0c44298fc1c149afbf4c8996fb92427ae41e4649b934ca495991b7852b855\",\
            \"outcome\":\"already\",\"tariffs\":\"e3b0c44298fc1c149afbf4c8996fb92427ae41e4649b934ca495991b7852b855\",\
            \"total\":0,\"tuples\":0}",
    },
    Row {
        request: b"POST /days/100 HTTP/1.1\r\nContent-Length: 3\r\n\r\nabc",
        end: SessionEnd::Answered(409),
        status: "409 Conflict",
        body: "{\"error\":\"differs\",\"found\":\"ca978112ca1bbdcafac231b39a23dc4da786eff8147c4e72b9807785afee48bb\",\
            \"kept\":\"e3b0c44298fc1c149afbf4c8996fb92427ae41e4649b934ca495991b7852b855\"}",
    },
    Row {
        request: b"POST /days/100 HTTP/1.1\r\nContent-Length: 4\r\n\r\nabc",
        end: SessionEnd::Cut,
        status: "",
        body: "",
    },
    Row {
        request: b"POST /days/99 HTTP/1.1\r\nContent-Length: 0\r\n\r\n",
        end: SessionEnd::Answered(409),
        status: "409 Conflict",
        body: "{\"error\":\"passed\",\"last\":100}",
    },
    Row {
        request: b"POST /days/99 HTTP/1.1\r\nContent-Length: 1\r\n\r\n",
        end: SessionEnd::Cut,
        status: "",
        body: "",
    },
    Row {
        request: b"GET /days/100 HTTP/1.1\r\n\r\n",
        end: SessionEnd::Answered(200),
        status: "200 OK",
        body: "{\"bytes\":0,\"day\":100,\
            \"digest\":\"e3b0c44298fc1c149afbf4c8996fb92427ae41e4649b934ca495991b7852b855\",\"notices\":0,\
            \"notices_digest\":\"e3b0c44298fc1c149afbf4c8996fb92427ae41e4649b934ca495991b7852b855\",\
            \"tariffs\":\"e3b0c44298fc1c149afbf4c8996fb92427ae41e4649b934ca495991b7852b855\",\"total\":0,\"tuples\":0}",
    },
    Row {
        request: b"GET /health HTTP/1.1\r\n\r\n",
        end: SessionEnd::Answered(200),
        status: "200 OK",
        body: "{\"last_day\":100}",
    },
    Row {
        request: b"POST /health HTTP/1.1\r\nContent-Length: 0\r\n\r\n",
        end: SessionEnd::Answered(405),
        status: "405 Method Not Allowed",
        body: "{\"error\":\"method\"}",
    },
    Row {
        request: b"GET /spent/100/0/100 HTTP/1.1\r\n\r\n",
        end: SessionEnd::Answered(200),
        status: "200 OK",
        body: "{\"spent\":0}",
    },
    Row {
        request: b"GET /live/7 HTTP/1.1\r\n\r\n",
        end: SessionEnd::Answered(200),
        status: "200 OK",
        body: "{\"as_of\":0,\"balance\":0,\"day\":100}",
    },
];
