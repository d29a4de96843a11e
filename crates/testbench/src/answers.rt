// What a call answered, as a line: the bare values, or in words with the place of a stop.
use crate::commands::Name;
use crate::numbers::Bits;
use crate::writer::Out;
use rerecast::{Refusal, Stop};

// What a call answered: the y at which the box now ends, if it is a call that raises the box, or why it was refused.
pub type Answer = Result<Option<f32>, Refusal>;

// What the refusals mean.
fn meaning(refusal: Refusal) -> &'static str {
    match refusal {
        Refusal::BadNumber(_) => "a number is outside its limits",
        Refusal::BoxOrder => "the box's least corner is above its greatest",
        Refusal::GridSize(_, _) => "the grid has too few or too many cells",
        Refusal::Slices => "the lent slices do not fit",
        Refusal::NoSlot | Refusal::Stopped(Stop::NoSlot, _, _) => "the store is full",
        Refusal::Stopped(Stop::EighthVertex, _, _) => "a cut would write an eighth vertex",
        Refusal::Stopped(Stop::TooHigh, _, _) => "a floor would be 65535",
        Refusal::OffGrid => "the column is outside the grid",
        Refusal::Inverted => "the floor is above the ceiling",
        Refusal::NoVertex => "a face names no vertex",
        Refusal::Crowded => "a column has more than 255 walkable spans",
        Refusal::Layers(_, _) => "links to layers above 62 are left out",
        Refusal::Unsound => "the field is not sound",
        Refusal::SpansShort => "too few compact spans are lent",
    }
}

// The values of an answer, each after a space.
fn say_values(out: &mut Out, answer: Answer) {
    match answer {
        Ok(Some(x)) | Err(Refusal::BadNumber(x)) => write!(out, " {}", Bits::from(x)),
        Err(Refusal::GridSize(width, height)) => {
            write!(out, " {} {}", Bits::from(width), Bits::from(height));
        }
        Err(Refusal::Layers(layer, y)) => write!(out, " {layer} {}", Bits::from(y)),
        Err(Refusal::Stopped(_, triangle, made)) => write!(out, " {triangle} {made}"),
        _ => {}
    }
}

// The values of an answer in words.
fn say_place(out: &mut Out, answer: Answer) {
    match answer {
        Ok(Some(y)) => say_top(out, y),
        Err(Refusal::BadNumber(x)) => write!(out, ": {}", Bits::from(x)),
        Err(Refusal::GridSize(width, height)) => {
            write!(out, ": {} by {}", Bits::from(width), Bits::from(height));
        }
        Err(Refusal::Layers(layer, y)) => {
            write!(out, ", the largest is {layer}");
            say_top(out, y);
        }
        Err(Refusal::Stopped(_, triangle, made)) => {
            write!(out, ": triangle {triangle}, after {made} of its insertions");
        }
        _ => {}
    }
}

fn say_top(out: &mut Out, y: f32) {
    write!(out, ": the box now ends at y {}", Bits::from(y));
}

pub fn say(out: &mut Out, terse: bool, name: Name, answer: Answer) {
    let (number, meaning) = match answer {
        Ok(_) => (0, "accepted"),
        Err(refusal) => (refusal.number(), meaning(refusal)),
    };
    write!(out, "{}: reply {number}", name.word());
    if terse {
        say_values(out, answer);
    } else {
        write!(out, ", {meaning}");
        say_place(out, answer);
    }
    writeln!(out);
}
