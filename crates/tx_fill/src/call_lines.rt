// The lines that call and are called, in order.
ghost use Rattle.std.specs.Prelude.{◌≡◌, ◌+◌, ◌<◌, ◌≤◌, ◌^◌, ◌++◌, length, slice_get, IfSome};
ghost use Rattle.std.specs.Str.Parse.{digits_value};
ghost use Rattle.arrayvec.specs.ArrayVec.{array_vec_len};
ghost use Rattle.tx_plan.specs.Lines.{full_number};
ghost use Rattle.tx_fill.specs.CallLines.{figures, size_of, line_in, is_meant, lines_in, lines_of, line_pairs};

use arrayvec::ArrayVec;
use itoa::Buffer;
use std::alloc::Allocator;
use tx_plan::{CodeId, ExchangeId, Line, LineRange, National, Plan};
use tx_text::Figures;

/// Whose lines are meant.
#[derive(Drop)]
pub(crate) enum Whose {
    /// Those at home at an exchange.
    At(ExchangeId),
    /// Those of a code.
    Of(CodeId),
}

impl Whose {
    /// Whether those of a range are.
    fn has<A: Allocator>(&self, plan: &Plan<A>, range: &LineRange) -> bool
        ensures { result ≡ is_meant plan.now self.now range.now }
    {
        match self {
            Whose::At(exchange) => plan.home(range.code) == *exchange,
            Whose::Of(code) => range.code == *code,
        }
    }
}

/// The line at an index that calls from the exchange, and the one of the code that it calls: at the
/// home of the code the next one.
pub(crate) fn pair_at<A: Allocator>(
    plan: &Plan<A>,
    exchange: ExchangeId,
    code: CodeId,
    index: u64,
) -> Option<(Line, Line)>
    ensures pair { result ≡ slice_get (line_pairs plan.now exchange code) index }
    ensures few { IfSome result (λ _. index < 2 ^ 63) }
{
    let line = line_at(plan, &Whose::At(exchange), index)?;
    let own = u64::from(plan.home(code) == exchange);
    let called = line_at(plan, &Whose::Of(code), own + index)?;
    Some((line, called))
}

/// The line at an index of those that are meant.
fn line_at<A: Allocator>(plan: &Plan<A>, whose: &Whose, index: u64) -> Option<Line>
    ensures line { result ≡ slice_get (lines_of plan.now whose.now) index }
    ensures few { IfSome result (λ _. index < 2 ^ 63) }
{
    let mut left = index;
    for i in 0..plan.ranges() {
        match plan.range_at(i) {
            Some(range) => {
                let count = count_in(plan, whose, &range);
                if left < count {
                    return Some(line_in(&range, left));
                }
                left -= count;
            }
            None => unreachable!(),
        }
    }
    None
}

/// How many lines a range has, if they are meant.
fn count_in<A: Allocator>(plan: &Plan<A>, whose: &Whose, range: &LineRange) -> u64
    ensures count { result ≡ length (lines_in plan.now whose.now range.now) }
    ensures few { result ≤ 10 ^ 9 }
{
    if whose.has(plan, range) {
        size_of(range)
    } else {
        0
    }
}

/// How many lines a range has.
fn size_of(range: &LineRange) -> u64
    ensures size { result ≡ size_of range.now }
    ensures few { result ≤ 10 ^ 9 }
{
    (value_of(&range.high) + 1).saturating_sub(value_of(&range.low))
}

/// The value of a national number.
fn value_of(number: &National) -> u64
    ensures value { result ≡ digits_value 10 number.now }
    ensures few { result < 10 ^ 9 }
{
    let text = number.bytes();
    let mut value: u64 = 0;
    for figure in text {
        value = value * 10 + u64::from(*figure - b'0');
    }
    value
}

/// The line at an index of a range.
fn line_in(range: &LineRange, index: u64) -> Line
    requires { digits_value 10 range.now.low + index < 10 ^ length range.now.low }
    ensures { result ≡ line_in range.now index }
{
    let width = range.low.bytes().len();
    Line {
        code: range.code,
        national: padded(value_of(&range.low) + index, width),
    }
}

/// A number in so many figures, with zeros before it.
fn padded(number: u64, width: usize) -> National
    requires some { 1 ≤ width }
    requires few { width ≤ 9 }
    requires fits { number < 10 ^ width }
    ensures { result ≡ figures width number }
{
    let mut buffer = Buffer::new();
    let digits = buffer.format(number).as_bytes();
    let mut figures: ArrayVec<u8, 9> = ArrayVec::new();
    put(&mut figures, &b"000000000"[..width - digits.len()]);
    put(&mut figures, digits);
    match National::read(&figures) {
        Some(national) => national,
        None => unreachable!(),
    }
}

/// What is keyed for a line: its code and its national number.
pub(crate) fn full_number<A: Allocator>(plan: &Plan<A>, line: &Line) -> Figures
    ensures { result ≡ full_number plan.now line.now }
{
    plan.rules();
    let mut keyed: ArrayVec<u8, 12> = ArrayVec::new();
    put(&mut keyed, plan.code_figures(line.code));
    put(&mut keyed, line.national.bytes());
    match Figures::read(&keyed) {
        Some(figures) => figures,
        None => unreachable!(),
    }
}

/// Appends bytes to a text that has room for them.
fn put<const N: usize>(text: &mut ArrayVec<u8, N>, bytes: &[u8])
    requires { array_vec_len text.old + length bytes.now ≤ N }
    ensures text { text.new.items ≡ text.old.items ++ bytes.now }
    ensures width { array_vec_len text.new ≡ array_vec_len text.old + length bytes.now }
{
    match text.try_extend_from_slice(bytes) {
        Ok(()) => {}
        Err(_) => unreachable!(),
    }
}
