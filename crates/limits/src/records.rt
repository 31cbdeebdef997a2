// Records as an editor makes them, through what `pane`, `picture`, `text_box`, `window`, `alignment` and `strip` offer: a blank one, with what is set in it.
// A write reads no count, label place or label length of a record. Where they are set here they are 7, which no read gives back.
use alignment::blank_alignment;
use pane::blank_pane;
use picture::{PicturePane, blank_picture};
use strip::kind::Kind;
use strip::record::{Record, blank_record};
use text_box::{FontMeasure, Span, Text, TextBoxPane, blank_text_box};
use window::{WindowContent, WindowPane, blank_window};

// A blank record of a kind, with this reserve0.
pub(crate) fn of_kind(kind: Kind, reserve0: u8) -> Record {
    let mut base = blank_pane();
    base.flag_ex.reserve0 = reserve0;
    Record {
        kind,
        base,
        ..blank_record()
    }
}

// An alignment pane with nothing set.
pub(crate) fn alignment_pane() -> Record {
    Record {
        alignment: blank_alignment(),
        ..of_kind(Kind::Ali1, 31)
    }
}

// A picture with a shape index.
pub(crate) fn picture_with(index: u32) -> Record {
    let picture = PicturePane {
        shape_info_array_index: Some(index),
        quad_count: 7,
        ..blank_picture()
    };
    Record {
        picture,
        ..of_kind(Kind::Pic1, 31)
    }
}

// A window whose content has this material.
pub(crate) fn window_with(material_index: u16) -> Record {
    let blank = blank_window();
    let content = WindowContent {
        material_index,
        quad_count: 7,
        ..blank.content
    };
    let window = WindowPane {
        content,
        frame_count: 7,
        ..blank
    };
    Record {
        window,
        ..of_kind(Kind::Wnd1, 31)
    }
}

// ---- text boxes

const LABEL: Option<Span> = Some(Span {
    place: 7,
    length: 7,
});

// Of a text box.
fn of_text_box(text_box: TextBoxPane) -> Record {
    Record {
        text_box,
        ..of_kind(Kind::Txt1, 31)
    }
}

fn text(text_length: u16) -> TextBoxPane {
    TextBoxPane {
        text_buffer_size: text_length,
        text_length,
        text: Text::Present,
        ..blank_text_box()
    }
}

// A text, with no other part.
pub(crate) fn text_of(text_length: u16) -> Record {
    of_text_box(text(text_length))
}

// A line table, with no other part, and flag bit 6 as it is given.
pub(crate) fn table_with(transform: bool) -> Record {
    let mut text_box = blank_text_box();
    text_box.text_flags.is_line_transform = transform;
    text_box.line_table = Some(7);
    of_text_box(text_box)
}

// A label, with no other part.
pub(crate) fn labelled() -> Record {
    of_text_box(TextBoxPane {
        label: LABEL,
        ..blank_text_box()
    })
}

// All three parts, and a font scale.
pub(crate) fn whole() -> Record {
    let blank = text(65_535);
    let mut text_box = TextBoxPane {
        label: LABEL,
        line_table: Some(7),
        font_measure: FontMeasure::Scale(blank.shadow_size),
        ..blank
    };
    text_box.text_flags.is_line_transform = true;
    of_text_box(text_box)
}
