// The lines of the bench.
ghost use Rattle.std.specs.Prelude.{◌≡◌, ◌+◌, ◌*◌, ◌<◌, true, false, ◌&&◌, Some, MatchOption};
ghost use Rattle.bench.specs.Lines.{is_hex, hex_value, info_line, record_line, line_read, answer_text, shown_text};
ghost use Rattle.bench.specs.Exchanges.{bench_blocks, exchanges, first_lines, first_shown};
ghost use Rattle.drive.specs.Machines.{made};

use refusal::Refusal;
use std::fmt;

// An MST with its INFO, or the record of an MDT: control word and service info.
// stays: an enum of its own, since neither telegram is the lack or the failure of the other.
#[derive(Clone, Copy, PartialEq, Eq, Debug)]
pub enum Line {
    Info(u8),
    Record { control: u16, info: u16 },
}

// What an AT tells beside the address.
#[derive(Clone, Copy, PartialEq, Eq, Debug)]
pub struct Answer {
    pub status: u16,
    pub info: u16,
}

impl fmt::Display for Answer {
    ghost output = { λ a. Some (answer_text a) };

    fn fmt<W: fmt::Write>(&self, f: &mut fmt::Formatter<W>) -> fmt::Result {
        let Answer { status, info } = *self;
        write!(f, "{status:04X} {info:04X}")
    }
}

// What a line shows: the next AT, or the number of a refusal.
#[derive(Clone, Copy, PartialEq, Eq, Debug)]
pub struct Shown(pub Result<Answer, Refusal>);

impl fmt::Display for Shown {
    ghost output = { λ s. Some (shown_text s.0) };

    fn fmt<W: fmt::Write>(&self, f: &mut fmt::Formatter<W>) -> fmt::Result {
        match self.0 {
            Ok(answer) => write!(f, "{answer}"),
            Err(refusal) => {
                let number = refusal.number();
                write!(f, "R {number:02}")
            }
        }
    }
}

// The first lines of every bench run; by the rules they show just this.
pub fn first_lines() -> [Line; 10]
    ensures lines { result ≡ first_lines }
    ensures shown { exchanges (made 1 bench_blocks) first_lines ≡ first_shown }
{
    [
        Line::Info(0),
        Line::Info(1),
        record(0x0001, 0),
        Line::Info(2),
        record(0x000F, 2),
        record(0x0018, 0),
        record(0x001D, 0),
        record(0x003E, 0x03E8),
        record(0x003F, 0x003D),
        record(0x000F, 2),
    ]
}

fn record(control: u16, info: u16) -> Line
    ensures { result ≡ Line.Record control info }
{
    Line::Record { control, info }
}

// The value of a capital hexadecimal digit.
// stays: a match by hand, since to_digit and from_str_radix take small letters too; with a filter for them it is no shorter.
fn hex(c: u8) -> Option<u8>
    ensures { MatchOption result (is_hex c ≡ false) (λ v. (is_hex c ≡ true) × (v ≡ hex_value c) × (v < 16)) }
{
    match c {
        b'0'..=b'9' => Some(c - b'0'),
        b'A'..=b'F' => Some(c - b'A' + 10),
        _ => None,
    }
}

// The value of two such digits.
fn byte(high: u8, low: u8) -> Option<u8>
    ensures { MatchOption result (is_hex high && is_hex low ≡ false) (λ v. (is_hex high && is_hex low ≡ true) × (v ≡ 16 * hex_value high + hex_value low)) }
{
    Some(16 * hex(high)? + hex(low)?)
}

fn info_line(text: &[u8]) -> Option<Line>
    ensures { result ≡ info_line text.now }
{
    let [b'S', b' ', high, low] = text else {
        return None;
    };
    Some(Line::Info(byte(*high, *low)?))
}

fn record_line(text: &[u8]) -> Option<Line>
    ensures { result ≡ record_line text.now }
{
    let [b'D', b' ', a, b, c, d, b' ', e, f, g, h] = text else {
        return None;
    };
    let control = u16::from_be_bytes([byte(*a, *b)?, byte(*c, *d)?]);
    let info = u16::from_be_bytes([byte(*e, *f)?, byte(*g, *h)?]);
    Some(Line::Record { control, info })
}

// The line that a text is, if it has exactly its form.
pub fn parse(text: &[u8]) -> Option<Line>
    ensures { result ≡ line_read text.now }
{
    info_line(text).or_else(|| record_line(text))
}
