// What a node waits for.

ghost use Rattle.std.specs.Prelude.{◌≡◌, ◌++◌, OnOk, codes, is_some};
ghost use Rattle.lrc_need.specs.Wait.{seen_wait};
ghost use Rattle.lrc_control.specs.Text.{begun_by};
ghost use Rattle.lrc_state_text.specs.Waits.{going_text, standing_text, wait_text};

use lrc_need::Wait;
use lrc_text::push_number;
use lrc_trace::end::End;
use std::alloc::AllocError;

#[tactic(auto, unfolding(crate::specs::Waits::going_text))]
fn going_text(may_begin: bool) -> &'static [u8]
    ensures { result.now ≡ going_text may_begin }
{
    if may_begin { b"no" } else { b"steps used up" }
}

#[tactic(auto, unfolding(crate::specs::Waits::standing_text))]
// Adds how a node stands that awaits nothing.
fn push_standing(text: &mut Vec<u8>, end: End, may_begin: bool) -> Result<(), AllocError>
    ensures { OnOk result (text.new.items ≡ text.old.items ++ standing_text end may_begin) }
{
    match end {
        End::Unfinished => text.extend_from_slice(going_text(may_begin)),
        End::Trapped(cause) => push_number(text, b"trapped ", u64::from(cause as u8)),
        End::Ended => text.extend_from_slice(b"ended"),
    }
}

#[tactic(auto, unfolding(crate::specs::Waits::wait_text))]
/// Adds what a node waits for. If it waits for nothing, it adds how its text ended so far (`end`), or else whether the
/// node may begin its next statement. `episode` is how often the node has arrived at a barrier.
pub(crate) fn push_wait(
    text: &mut Vec<u8>,
    end: End,
    may_begin: bool,
    episode: u32,
    wait: &Wait,
) -> Result<(), AllocError>
    ensures { OnOk result (text.new.items
        ≡ text.old.items ++ wait_text end may_begin episode (seen_wait wait.now)) }
{
    match wait {
        Wait::Nothing => push_standing(text, end, may_begin),
        Wait::Grant(lock) => push_number(text, b"grant ", u64::from(*lock)),
        Wait::Departure => push_number(text, b"depart ", u64::from(episode)),
        Wait::Access(need) => push_number(text, b"page ", u64::from(need.page())),
        Wait::Upkeep(_, _) => push_number(text, b"upkeep ", u64::from(episode)),
        Wait::Discard(_) => push_number(text, b"discard ", u64::from(episode)),
    }
}
