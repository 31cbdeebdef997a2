// A pane of any kind.
ghost use Rattle.std.specs.Prelude.{◌≡◌};
ghost use Rattle.strip_records.specs.Whole.{blank_record};

use crate::kind::Kind;
use alignment_fields::AlignmentPane;
use pane_read::Pane;
use picture_fields::PicturePane;
use text_box_read::TextBoxPane;
use window_read::WindowPane;

// The fields of other kinds are blank after a read, and not looked at by a write.
#[derive(Clone, Copy)]
pub struct Record {
    pub kind: Kind,
    pub base: Pane,
    pub picture: PicturePane,
    pub text_box: TextBoxPane,
    pub window: WindowPane,
    pub alignment: AlignmentPane,
}

// The record beside an answer that is no pane.
#[tactic(auto, unfolding(crate::specs::Whole::blank_record))]
pub fn blank_record() -> Record
    ensures { result ≡ blank_record }
{
    Record {
        kind: Kind::Pan1,
        base: pane_read::blank_pane(),
        picture: picture_fields::blank_picture(),
        text_box: text_box_read::blank_text_box(),
        window: window_read::blank_window(),
        alignment: alignment_fields::blank_alignment(),
    }
}
