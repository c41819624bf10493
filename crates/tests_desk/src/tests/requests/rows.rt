// Requests, what they ask, and what is answered to those that are refused.
use super::Came;
use serve_requests::SessionEnd;

pub const BAD_HEAD: &[u8] =
    b"HTTP/1.1 400 Bad Request\r\nContent-Length: 16\r\nContent-Type: application/json\r\nConnection: close\r\n\r\n\
        {\"error\":\"head\"}";

const BAD_ORIGIN: &[u8] =
    b"HTTP/1.1 403 Forbidden\r\nContent-Length: 18\r\nContent-Type: application/json\r\nConnection: close\r\n\r\n\
        {\"error\":\"origin\"}";

const NO_PATH: &[u8] =
    b"HTTP/1.1 404 Not Found\r\nContent-Length: 19\r\nContent-Type: application/json\r\nConnection: close\r\n\r\n\
        {\"error\":\"no path\"}";

const BAD_METHOD: &[u8] =
    b"HTTP/1.1 405 Method Not Allowed\r\nContent-Length: 18\r\nContent-Type: application/json\r\n\
        Connection: close\r\n\r\n{\"error\":\"method\"}";

const BAD_LENGTH: &[u8] =
    b"HTTP/1.1 400 Bad Request\r\nContent-Length: 18\r\nContent-Type: application/json\r\nConnection: close\r\n\r\n\
        {\"error\":\"length\"}";

pub const NO_LENGTH: &[u8] =
    b"HTTP/1.1 411 Length Required\r\nContent-Length: 25\r\nContent-Type: application/json\r\n\
        Connection: close\r\n\r\n{\"error\":\"length needed\"}";

const TOO_LONG: &[u8] =
    b"HTTP/1.1 413 Payload Too Large\r\nContent-Length: 20\r\nContent-Type: application/json\r\n\
        Connection: close\r\n\r\n{\"error\":\"too long\"}";

/// Requests that are read, and what they ask.
pub const ASKED: [(&[u8], Came); 39] = [
    (b"GET /days/100 HTTP/1.1\r\n\r\n", Came::Day(100)),
    (b"GET /days/100 HTTP/1.0\n\n", Came::Day(100)),
    (b"\r\n\r\nGET /days/100 HTTP/1.1\r\n\r\n", Came::Day(100)),
    (b"GET /days/0000000100 HTTP/1.1\r\n\r\n", Came::Day(100)),
    (
        b"GET /days/70?day=/live&x=%20 HTTP/1.1\r\nHost: localhost\r\n\r\n",
        Came::Day(70),
    ),
    (
        b"GET /days/1000000? HTTP/1.1\r\nContent-Length: x\r\nTransfer-Encoding: chunked\r\n\r\nbody",
        Came::Day(1000000),
    ),
    (
        b"POST /days/100 HTTP/1.1\r\nContent-Length: 0\r\n\r\n",
        Came::Import(100, 0),
    ),
    (
        b"POST /days/100 HTTP/1.1\r\ncontent-LENGTH: \t5 \r\n\r\nabc",
        Came::Import(100, 5),
    ),
    (
        b"POST /days/100 HTTP/1.1\r\nContent-Length: 0000000003\r\nExpect: 100-continue\r\n\r\nabcd",
        Came::Import(100, 3),
    ),
    (
        b"POST /days/100 HTTP/1.1\r\nContent-Length: 4000000000\r\n\r\n",
        Came::Import(100, 4000000000),
    ),
    (
        b"GET /spent/100/0/100 HTTP/1.1\r\n\r\n",
        Came::Spent(100, 0, 100),
    ),
    (
        b"GET /spent/1/255/2147483647 HTTP/1.1\r\n\r\n",
        Came::Spent(1, 255, 2147483647),
    ),
    (
        b"GET /spent/1000000/000/0 HTTP/1.1\r\n\r\n",
        Came::Spent(1000000, 0, 0),
    ),
    (b"GET /live/0 HTTP/1.1\r\n\r\n", Came::Live(0)),
    (
        b"GET /live/2147483647 HTTP/1.1\r\n\r\n",
        Came::Live(2147483647),
    ),
    (b"GET /live HTTP/1.1\r\n\r\n", Came::Total),
    (
        b"GET /live/5 HTTP/1.1\r\nHost: 127.0.0.1:8080\r\n\r\n",
        Came::Live(5),
    ),
    (
        b"GET /live/5 HTTP/1.1\r\nhost: LocalHost:1\r\nX-Origin: a\r\n\r\n",
        Came::Live(5),
    ),
    (
        b"GET /live/5 HTTP/1.1\r\nHost: [::1]:65535\r\nHost: localhost:\r\n\r\n",
        Came::Live(5),
    ),
    (b"GET /live?x HTTP/1.1\r\n\r\n", Came::Total),
    (
        b"GET /vehicles/100/1/1000000 HTTP/1.1\r\n\r\n",
        Came::Vehicle(100, 1, 1000000),
    ),
    (
        b"GET /vehicles/2147483647/070/70?from=1 HTTP/1.1\r\n\r\n",
        Came::Vehicle(2147483647, 70, 70),
    ),
    (b"GET /days HTTP/1.1\r\n\r\n", Came::Days),
    (
        b"GET /days?from=/live HTTP/1.1\r\nHost: localhost:8080\r\n\r\n",
        Came::Days,
    ),
    (b"GET / HTTP/1.1\r\n\r\n", Came::Page),
    (b"GET /? HTTP/1.0\n\n", Came::Page),
    (
        b"GET / HTTP/1.1\r\nHost: 127.0.0.1:8080\r\nConnection: keep-alive\r\n\r\n",
        Came::Page,
    ),
    (b"GET /health HTTP/1.1\r\n\r\n", Came::Health),
    (b"GET /health?of=/live HTTP/1.0\n\n", Came::Health),
    (
        b"POST /answers/100 HTTP/1.1\r\nContent-Length: 0\r\n\r\n",
        Came::Answers(100, 0),
    ),
    (
        b"POST /answers/0000000070?late=1 HTTP/1.1\r\ncontent-length: 4000000000\r\n\r\nabc",
        Came::Answers(70, 4000000000),
    ),
    (
        b"POST /answers/1000000 HTTP/1.0\nContent-Length: 3\n\nabcd",
        Came::Answers(1000000, 3),
    ),
    (b"", Came::Ended(SessionEnd::Cut)),
    (b"GET", Came::Ended(SessionEnd::Cut)),
    (b"GET /days/100", Came::Ended(SessionEnd::Cut)),
    (b"GET /days/100 HTTP/1.1", Came::Ended(SessionEnd::Cut)),
    (b"GET /days/100 HTTP/1.1\r\n", Came::Ended(SessionEnd::Cut)),
    (
        b"GET /days/100 HTTP/1.1\r\nHost: x\r\n\r",
        Came::Ended(SessionEnd::Cut),
    ),
    (b"\r\n", Came::Ended(SessionEnd::Cut)),
];

/// Requests that are refused with one status and answer.
pub struct Refused {
    pub status: u16,
    pub answer: &'static [u8],
    pub requests: &'static [&'static [u8]],
}

pub const REFUSED: [Refused; 7] = [
    Refused {
        status: 400,
        answer: BAD_HEAD,
        requests: &[
            b"\0",
            b"GET /days/100 HTTP/1.2\r\n\r\n",
            b"GET /days/100 HTTP/2.0\r\n\r\n",
            b"GET /days/100 HTTP/1.1\r\nHost : x\r\n\r\n",
            b"GET /days/100 HTTP/1.1\r\nHost: x\r\n more\r\n\r\n",
            b"GET /days/100 HTTP/1.1\r\n: x\r\n\r\n",
            b"G(T /days/100 HTTP/1.1\r\n\r\n",
        ],
    },
    Refused {
        status: 403,
        answer: BAD_ORIGIN,
        requests: &[
            b"GET /live HTTP/1.1\r\nHost: x\r\n\r\n",
            b"GET / HTTP/1.1\r\nHost: x\r\n\r\n",
            b"GET /days HTTP/1.1\r\nHost: localhost\r\nOrigin: http://x\r\n\r\n",
            b"GET /vehicles/100/1/2 HTTP/1.1\r\nOrigin: null\r\n\r\n",
            b"GET /nothing HTTP/1.1\r\nHost: desk.example:8080\r\n\r\n",
            b"GET /live HTTP/1.1\r\nHost: 127.0.0.1.example\r\n\r\n",
            b"GET /live HTTP/1.1\r\nHost: localhost:80.example\r\n\r\n",
            b"GET /live HTTP/1.1\r\nHost: localhos\r\n\r\n",
            b"GET /live HTTP/1.1\r\nHost:\r\n\r\n",
            b"GET /live HTTP/1.1\r\nHost: localhost\r\nHost: x\r\n\r\n",
            b"DELETE /live HTTP/1.1\r\nOrigin: null\r\n\r\n",
            b"GET /live HTTP/1.1\r\nHost: localhost\r\norigin: http://localhost\r\n\r\n",
            b"POST /days/100 HTTP/1.1\r\nOrigin: http://x\r\nContent-Length: 0\r\n\r\n",
            b"POST /days/100 HTTP/1.1\r\nOrigin: http://x\r\nContent-Length: x\r\n\r\n",
            b"POST /answers/100 HTTP/1.1\r\nOrigin: http://x\r\nContent-Length: 0\r\n\r\n",
        ],
    },
    Refused {
        status: 404,
        answer: NO_PATH,
        requests: &[
            b"GET /nothing HTTP/1.1\r\n\r\n",
            b"GET * HTTP/1.1\r\n\r\n",
            b"GET // HTTP/1.1\r\n\r\n",
            b"GET /index.html HTTP/1.1\r\n\r\n",
            b"GET ?x HTTP/1.1\r\n\r\n",
            b"GET http://desk/live HTTP/1.1\r\n\r\n",
            b"GET days/100 HTTP/1.1\r\n\r\n",
            b"GET //days/100 HTTP/1.1\r\n\r\n",
            b"GET /days/ HTTP/1.1\r\n\r\n",
            b"GET /Days HTTP/1.1\r\n\r\n",
            b"GET /days/100/ HTTP/1.1\r\n\r\n",
            b"GET /days/7 HTTP/1.1\r\n\r\n",
            b"GET /days/69 HTTP/1.1\r\n\r\n",
            b"GET /days/1000001 HTTP/1.1\r\n\r\n",
            b"GET /days/00000000100 HTTP/1.1\r\n\r\n",
            b"GET /days/18446744073709551716 HTTP/1.1\r\n\r\n",
            b"GET /days/+100 HTTP/1.1\r\n\r\n",
            b"GET /days/-100 HTTP/1.1\r\n\r\n",
            b"GET /days/1e2 HTTP/1.1\r\n\r\n",
            b"GET /days/%31%30%30 HTTP/1.1\r\n\r\n",
            b"GET /%64ays/100 HTTP/1.1\r\n\r\n",
            b"GET /days/100%3Fx HTTP/1.1\r\n\r\n",
            b"GET /days/\xc2\xb9\xc2\xb9\xc2\xb9 HTTP/1.1\r\n\r\n",
            b"POST /nothing HTTP/1.1\r\n\r\n",
            b"POST /days/7 HTTP/1.1\r\nContent-Length: x\r\n\r\n",
            b"GET /spent/100/0 HTTP/1.1\r\n\r\n",
            b"GET /spent/0/0/100 HTTP/1.1\r\n\r\n",
            b"GET /spent/100/256/100 HTTP/1.1\r\n\r\n",
            b"GET /spent/100/0/2147483648 HTTP/1.1\r\n\r\n",
            b"GET /spent/100/0/100/ HTTP/1.1\r\n\r\n",
            b"GET /spent/100/0/100/1 HTTP/1.1\r\n\r\n",
            b"GET /spent/100//100 HTTP/1.1\r\n\r\n",
            b"GET /live/ HTTP/1.1\r\n\r\n",
            b"GET /live/2147483648 HTTP/1.1\r\n\r\n",
            b"GET /live/9999999999 HTTP/1.1\r\n\r\n",
            b"GET /LIVE HTTP/1.1\r\n\r\n",
            b"GET /health/ HTTP/1.1\r\n\r\n",
            b"GET /healthy HTTP/1.1\r\n\r\n",
            b"GET /vehicles HTTP/1.1\r\n\r\n",
            b"GET /vehicles/100 HTTP/1.1\r\n\r\n",
            b"GET /vehicles/100/1 HTTP/1.1\r\n\r\n",
            b"GET /vehicles/100/2/1 HTTP/1.1\r\n\r\n",
            b"GET /vehicles/100/0/1 HTTP/1.1\r\n\r\n",
            b"GET /vehicles/100/1/1000001 HTTP/1.1\r\n\r\n",
            b"GET /vehicles/2147483648/1/2 HTTP/1.1\r\n\r\n",
            b"GET /vehicles/100//2 HTTP/1.1\r\n\r\n",
            b"GET /vehicles/100/1/2/ HTTP/1.1\r\n\r\n",
            b"GET /vehicles/100/1/2/3 HTTP/1.1\r\n\r\n",
            b"POST /answers HTTP/1.1\r\nContent-Length: 0\r\n\r\n",
            b"POST /answers/ HTTP/1.1\r\nContent-Length: 0\r\n\r\n",
            b"POST /answers/69 HTTP/1.1\r\nContent-Length: 0\r\n\r\n",
            b"POST /answers/1000001 HTTP/1.1\r\nContent-Length: 0\r\n\r\n",
            b"POST /answers/100/1 HTTP/1.1\r\nContent-Length: 0\r\n\r\n",
        ],
    },
    Refused {
        status: 405,
        answer: BAD_METHOD,
        requests: &[
            b"DELETE /days/100 HTTP/1.1\r\n\r\n",
            b"PUT /days/100 HTTP/1.1\r\nContent-Length: x\r\n\r\n",
            b"HEAD /days/100 HTTP/1.1\r\n\r\n",
            b"get /days/100 HTTP/1.1\r\n\r\n",
            b"GETS /days/100 HTTP/1.1\r\n\r\n",
            b"POST /spent/100/0/100 HTTP/1.1\r\nContent-Length: 0\r\n\r\n",
            b"POST /live/100 HTTP/1.1\r\n\r\n",
            b"POST /live HTTP/1.1\r\n\r\n",
            b"OPTIONS /live HTTP/1.1\r\n\r\n",
            b"POST /days HTTP/1.1\r\nContent-Length: 0\r\n\r\n",
            b"DELETE /days HTTP/1.1\r\n\r\n",
            b"POST / HTTP/1.1\r\nContent-Length: 0\r\n\r\n",
            b"HEAD / HTTP/1.1\r\n\r\n",
            b"PUT /vehicles/100/1/2 HTTP/1.1\r\n\r\n",
            b"GET /answers/100 HTTP/1.1\r\n\r\n",
            b"PUT /answers/100 HTTP/1.1\r\nContent-Length: x\r\n\r\n",
        ],
    },
    Refused {
        status: 400,
        answer: BAD_LENGTH,
        requests: &[
            b"POST /days/100 HTTP/1.1\r\nContent-Length: x\r\n\r\n",
            b"POST /days/100 HTTP/1.1\r\nContent-Length:\r\n\r\n",
            b"POST /days/100 HTTP/1.1\r\nContent-Length: +5\r\n\r\n",
            b"POST /days/100 HTTP/1.1\r\nContent-Length: -5\r\n\r\n",
            b"POST /days/100 HTTP/1.1\r\nContent-Length: 5, 5\r\n\r\n",
            b"POST /days/100 HTTP/1.1\r\nContent-Length: 0x5\r\n\r\n",
            b"POST /days/100 HTTP/1.1\r\nContent-Length: 00000000005\r\n\r\n",
            b"POST /days/100 HTTP/1.1\r\nContent-Length: 18446744073709551621\r\n\r\n",
            b"POST /days/100 HTTP/1.1\r\nContent-Length: 5\r\nContent-Length: 5\r\n\r\n",
            b"POST /days/100 HTTP/1.1\r\nContent-Length: 0\r\ncontent-length: 0\r\n\r\n",
            b"POST /days/100 HTTP/1.1\r\nContent-Length: 5\r\nContent-Length: x\r\nTransfer-Encoding: chunked\r\n\r\n",
            b"POST /days/100 HTTP/1.1\r\nTransfer-Encoding: chunked\r\nContent-Length: x\r\n\r\n",
            b"POST /answers/100 HTTP/1.1\r\nContent-Length: x\r\n\r\n",
        ],
    },
    Refused {
        status: 411,
        answer: NO_LENGTH,
        requests: &[
            b"POST /days/100 HTTP/1.1\r\n\r\n",
            b"POST /days/100 HTTP/1.1\r\nContent-Lengths: 5\r\n\r\n",
            b"POST /days/100 HTTP/1.1\r\nTransfer-Encoding: chunked\r\n\r\n",
            b"POST /days/100 HTTP/1.1\r\nContent-Length: 0\r\ntransfer-encoding: identity\r\n\r\n",
            b"POST /days/100 HTTP/1.1\r\nTransfer-Encoding:\r\nContent-Length: 4000000001\r\n\r\n",
            b"POST /answers/100 HTTP/1.1\r\n\r\n",
            b"POST /answers/100 HTTP/1.1\r\nTransfer-Encoding: chunked\r\n\r\n",
        ],
    },
    Refused {
        status: 413,
        answer: TOO_LONG,
        requests: &[
            b"POST /days/100 HTTP/1.1\r\nContent-Length: 4000000001\r\n\r\n",
            b"POST /days/100 HTTP/1.1\r\nContent-Length: 9999999999\r\n\r\n",
            b"POST /answers/100 HTTP/1.1\r\nContent-Length: 4000000001\r\n\r\n",
        ],
    },
];
