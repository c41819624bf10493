// The page to watch the day by, and the bytes of its answer.
ghost use Rattle.std.specs.Prelude.{◌≡◌, string_bytes, IfOk};
ghost use Rattle.serve_requests.specs.Pages as pages;

mod asking;
mod markup;
mod showing;
mod style;

use crate::page::asking::ASKING;
use crate::page::markup::{BODY, END, FRONT};
use crate::page::showing::SHOWING;
use crate::page::style::STYLE;
use crate::replies::{length_field, status_line};
use http::StatusCode;
use road_time::NoMemory;
use std::alloc::Global;

/// The page, up to its script.
fn page_front(alloc: Global) -> Result<String, NoMemory>
    ensures { IfOk result (λ s. string_bytes s ≡ pages.page_front) }
{
    Ok(format!(in alloc; "{FRONT}{STYLE}{BODY}")?)
}

/// The page.
fn whole_page(alloc: Global) -> Result<String, NoMemory>
    ensures { IfOk result (λ s. string_bytes s ≡ pages.whole_page) }
{
    let front = page_front(alloc)?;
    Ok(format!(in alloc; "{front}{ASKING}{SHOWING}{END}")?)
}

/// The answer that has a page.
fn page_reply(alloc: Global, page: &str) -> Result<String, NoMemory>
    ensures { IfOk result (λ s. string_bytes s ≡ pages.page_reply page.now) }
{
    let line = status_line(alloc, StatusCode::OK)?;
    let length = length_field(alloc, page)?;
    Ok(format!(in alloc;
        "{line}\r\n{length}\r\nContent-Type: text/html; charset=utf-8\r\nX-Frame-Options: DENY\r\nX-Content-Type-Options: nosniff\r\nCache-Control: no-store\r\nConnection: close\r\n\r\n{page}"
    )?)
}

/// All the bytes of the answer that has the page.
pub fn page_text(alloc: Global) -> Result<String, NoMemory>
    ensures { IfOk result (λ s. string_bytes s ≡ pages.page_bytes) }
{
    let page = whole_page(alloc)?;
    page_reply(alloc, page.as_str())
}
