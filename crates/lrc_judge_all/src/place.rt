// Where an act is.

ghost use Rattle.std.specs.Prelude.{◌≡◌, ◌<◌, length};
ghost use Rattle.lrc_judge_text.specs.Judgement.{place_at};

use lrc_acts::judge_lines::Place;

/// Returns the place of the act at this position.
pub(crate) fn place_at(lines: &[u32], position: usize) -> Place
    requires { position < length lines.now }
    ensures { result ≡ place_at lines.now position }
{
    Place {
        position,
        line: lines[position],
    }
}
