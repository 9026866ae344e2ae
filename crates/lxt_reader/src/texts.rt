// The text of a facility at a time, with a lent text where it has no change up to then.
ghost use Rattle.std.specs.Prelude.{◌≡◌, length};
ghost use Rattle.lxt_format.specs.Answers.{text_says};
ghost use Rattle.lxt_format.specs.Questions.{text_asked, text_part, place_by};
ghost use Rattle.lxt_format.specs.declared.TextPlace.TheVariants.{File};
ghost use Rattle.lxt_reader.specs.Reading.{TextThere, text_length};
ghost use Rattle.lxt_format.specs.Changes.{data_at};

use crate::changes;
use lxt_changes::delta;
use lxt_format::{Kind, Refusal, TextPlace};
use lxt_values::entries::TimeTable;
use lxt_values::texts;

// Where the text of the change at `o` stands in the file, without its zero.
fn text_of(file: &[u8], end: usize, o: usize) -> TextPlace
    requires { TextThere file.now end o }
    ensures { result ≡ File (data_at file.now o) (text_length file.now end o) }
{
    let start = delta::data_at(file, o);
    let length = texts::length(file, start, end);
    TextPlace::File {
        start: start as u32,
        length: length as u32,
    }
}

// Where the text stands, in the file or the lent text.
pub fn place_at(file: &[u8], facility: u32, time: i64, text: &[u8]) -> Result<TextPlace, Refusal>
    ensures { text_says result ≡ text_asked file.now facility time (length text.now) }
{
    let chain = changes::find_chain(file, facility)?;
    let Kind::Text = chain.facts.kind else {
        return Ok(TextPlace::OtherKind);
    };
    let t = chain.tables;
    let times = TimeTable::new(file, t.times as usize, t.time_count, t.wide_times);
    match times.latest(chain.start as usize, time).offset {
        Some(o) => Ok(text_of(file, t.end, o)),
        None => Ok(TextPlace::Lent { length: text.len() }),
    }
}

// The text itself, a part of the file or the whole lent text; empty where the facility is of another kind or
// the question is refused. `place_at` says which it is.
pub fn text_at<'a>(file: &'a [u8], facility: u32, time: i64, text: &'a [u8]) -> &'a [u8]
    ensures result_value { result.now ≡ text_part file.now facility time text.now }
    ensures ref_ptr_value { result.ref_ptr ≡ place_by file.entry.ref_ptr text.entry.ref_ptr (text_asked file.now facility time (length text.now)) }
{
    match place_at(file, facility, time, text) {
        Ok(TextPlace::File { start, length }) => {
            let from = start as usize;
            let to = from + length as usize;
            &file[from..to]
        }
        Ok(TextPlace::Lent { length: _ }) => text,
        Ok(TextPlace::OtherKind) => &text[..0],
        Err(_) => &text[..0],
    }
}
