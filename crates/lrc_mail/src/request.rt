// The requests for what pages need.

ghost use Rattle.std.specs.Prelude.{◌≡◌, ◌<◌, ◌≤◌, ◌++◌, All, IfOk, OnOk, length, map, flat_map};
ghost use Rattle.lrc_page.specs.declared.TheConstants.{MOST_PAGES};
ghost use Rattle.lrc_envelope.specs.declared.message.Message.TheVariants as messages;
ghost use Rattle.lrc_protocol.specs.Turn.{letter, page_request_of, changes_request_of, requests_of};
ghost use Rattle.lrc_need.specs.Seen.{seen_base};

use crate::letter::Letter;
use lrc_envelope::{ChangesRequest, Message, PageRequest};
use lrc_need::{Asked, Base, Need};
use std::alloc::{AllocError, Global};

/// Returns the requests for several pages, page by page.
pub fn requests(alloc: Global, needs: &[Need]) -> Result<Vec<Letter>, AllocError>
    ensures { IfOk result (λ letters. letters.items ≡ flat_map requests_of needs.now) }
{
    let mut letters = Vec::new(alloc);
    for need in needs {
        put_requests(need, &mut letters)?;
    }
    Ok(letters)
}

/// Returns the requests for a page: first the one to the keeper, if a base copy is due, then one for each maker, makers
/// ascending.
pub fn requests_for(alloc: Global, need: &Need) -> Result<Vec<Letter>, AllocError>
    ensures { IfOk result (λ letters. letters.items ≡ requests_of need.now) }
{
    let mut letters = Vec::new(alloc);
    put_requests(need, &mut letters)?;
    Ok(letters)
}

/// Appends the requests for a page to other letters.
pub fn put_requests(need: &Need, letters: &mut Vec<Letter>) -> Result<(), AllocError>
    ensures { OnOk result (letters.new.items ≡ letters.old.items ++ requests_of need.now) }
{
    letters.reserve(1 + need.asked().len())?;
    put_page_request(need.page(), need.base(), letters)?;
    put_changes_requests(need.page(), need.asked(), letters)
}

// Puts the request of a page's base copy, where it is due, behind other letters.
fn put_page_request(page: u16, base: &Base, letters: &mut Vec<Letter>) -> Result<(), AllocError>
    requires { page < MOST_PAGES }
    ensures { OnOk result (letters.new.items
        ≡ letters.old.items ++ page_request_of page (seen_base base.now)) }
{
    if let Base::Due(keeper) = *base {
        letters.push(page_request(keeper, page))?;
    }
    Ok(())
}

// The request of a page's base copy from its keeper.
fn page_request(keeper: u8, page: u16) -> Letter
    requires { page < MOST_PAGES }
    ensures { result ≡ letter keeper (messages.PageRequest page) }
{
    Letter {
        to: keeper,
        message: Message::PageRequest(PageRequest { page }),
    }
}

// The request of changes of a page from their maker.
fn changes_request(alloc: Global, page: u16, asked: &Asked) -> Result<Letter, AllocError>
    requires page { page < MOST_PAGES }
    requires some { 1 ≤ length asked.now.indices }
    ensures { IfOk result (λ request. request ≡ changes_request_of page asked.now) }
{
    let indices = asked.duplicate_indices(alloc)?;
    Ok(Letter {
        to: asked.maker,
        message: Message::ChangesRequest(ChangesRequest { page, indices }),
    })
}

// Puts the requests of changes of a page from each of these makers behind other letters.
fn put_changes_requests(
    page: u16,
    all: &[Asked],
    letters: &mut Vec<Letter>,
) -> Result<(), AllocError>
    requires page { page < MOST_PAGES }
    requires some { All (λ asked. 1 ≤ length asked.indices) all.now }
    ensures { OnOk result (letters.new.items
        ≡ letters.old.items ++ map (changes_request_of page) all.now) }
{
    for asked in all {
        let request = changes_request(*letters.allocator(), page, asked)?;
        letters.push(request)?;
    }
    Ok(())
}
