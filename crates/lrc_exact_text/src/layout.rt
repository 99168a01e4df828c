// The exact memory of runs with a setting.

ghost use Rattle.std.specs.Prelude.{◌≡◌};
ghost use Rattle.lrc_exact_judge.specs.Shape.{shape_of};
ghost use Rattle.lrc_exact_text.specs.Layout.{shape_in};

use lrc_exact_judge::layout::Layout;
use lrc_setting::setting::Setting;

/// Returns how the exact memory is laid out of runs with this setting.
pub(crate) fn layout_in(setting: &Setting) -> Layout
    ensures { shape_of result ≡ shape_in setting.now }
{
    Layout {
        nodes: setting.nodes.number(),
        page_words: u32::from(setting.size.words()),
        collect: setting.collect,
    }
}
