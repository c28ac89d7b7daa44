// The readers of a small plan, as many entries as there may be, and lack of memory.
use crate::cases::{Refusing, Told, tell, tell_broken, tell_count};
use std::alloc::{Allocator, Global};
use tx_plan::{CodeId, Direction, ExchangeId, GroupId, Plan, PlanBuilder, PlanRefusal};
use tx_text::words;

/// One declaration of a small plan.
fn declare<A: Allocator>(plan: &mut PlanBuilder<A>, step: usize) -> Result<(), PlanRefusal> {
    match step {
        0 => plan.exchange(b"ALFA"),
        1 => plan.exchange(b"BETA"),
        2 => plan.code(b"41", b"ALFA"),
        3 => plan.code(b"51", b"BETA"),
        4 => plan.lines(b"41", b"001", b"099"),
        5 => plan.group(b"G1", b"ALFA", b"BETA", Direction::BothWay, 2),
        6 => plan.route(b"ALFA", b"51", words(b"G1")),
        _ => plan.bar(b"BETA", b"41"),
    }
}

/// Declares the small plan, and again what found no memory. Marks that, and returns whether all was
/// declared.
fn declare_all<A: Allocator>(plan: &mut PlanBuilder<A>, wanting: &mut [bool; 8]) -> bool {
    for step in 0..8usize {
        let mut answer = declare(plan, step);
        if answer == Err(PlanRefusal::NoMemory) {
            wanting[step] = true;
            answer = declare(plan, step);
        }
        if answer.is_err() {
            return false;
        }
    }
    true
}

/// Writes how many exchanges, codes, ranges, groups, routes and bars.
fn tell_sizes(plan: &Plan, out: &mut Told) {
    let sizes = [
        plan.exchanges(),
        plan.codes(),
        plan.ranges(),
        plan.groups(),
        plan.routes(),
        plan.bars(),
    ];
    for size in &sizes {
        tell_count(b"", *size as u64, b" ", out);
    }
    tell(b"entries\n", out);
}

/// Whether the readers of the small plan give the indexes and the names of what was declared.
fn are_names_right(plan: &Plan) -> [bool; 5] {
    let (alfa, beta, group) = (ExchangeId::of(0), ExchangeId::of(1), GroupId::of(0));
    let (home, code) = (CodeId::of(0), CodeId::of(1));
    let high = plan
        .range_at(0)
        .map(|range| range.high.bytes() == b"099".as_slice());
    let line = plan
        .line_at(home, b"007")
        .map(|line| line.national.bytes() == b"007".as_slice());
    [
        plan.exchange_at(1) == Some(beta)
            && plan.code_at(1) == Some(code)
            && plan.group_at(0) == Some(group)
            && plan.route_at(0) == Some((alfa, code))
            && plan.bar_at(0) == Some((beta, home)),
        high == Some(true),
        plan.exchange_named(b"BETA") == Some(beta)
            && plan.code_named(b"51") == Some(code)
            && plan.group_named(b"G1") == Some(group),
        plan.exchange_name(beta) == b"BETA".as_slice()
            && plan.code_figures(code) == b"51".as_slice()
            && plan.group_name(group) == b"G1".as_slice(),
        line == Some(true),
    ]
}

/// Whether they give its routes and its groups.
fn are_routes_right(plan: &Plan) -> [bool; 2] {
    let (alfa, beta, group) = (ExchangeId::of(0), ExchangeId::of(1), GroupId::of(0));
    let (home, code) = (CodeId::of(0), CodeId::of(1));
    [
        plan.home(code) == beta
            && plan.list(alfa, code) == [group].as_slice()
            && plan.is_barred(beta, home)
            && plan.is_origin(alfa)
            && plan.is_origin_for(alfa, code),
        plan.direction(group) == Direction::BothWay
            && plan.group_count(group) == 2
            && plan.ends(group) == (alfa, beta)
            && plan.other_end(group, alfa) == Some(beta)
            && plan.may_seize(group, beta),
    ]
}

/// Writes a word for each mark: one where it is set, else the other.
fn tell_marks(marks: &[bool], set: &[u8], other: &[u8], out: &mut Told) {
    for mark in marks {
        tell(if *mark { set } else { other }, out);
    }
}

/// A letter and four figures.
fn name_of(letter: u8, number: u32) -> [u8; 5] {
    [
        letter,
        b'0' + (number / 1000 % 10) as u8,
        b'0' + (number / 100 % 10) as u8,
        b'0' + (number / 10 % 10) as u8,
        b'0' + (number % 10) as u8,
    ]
}

/// Declares more exchanges, groups and ranges than there may be, and all codes.
fn fill(plan: &mut PlanBuilder) {
    for number in 0..4200u32 {
        let figures = name_of(b'0', number);
        let _ = plan.exchange(&name_of(b'E', number));
        let _ = plan.code(&figures[2..], b"BETA");
        let _ = plan.code(&figures[3..], b"BETA");
        let name = name_of(b'G', number);
        let _ = plan.group(&name, b"BETA", b"ALFA", Direction::OneWay, 1);
        let _ = plan.lines(b"41", &figures, &figures);
    }
}

/// Writes what the small plan holds, or how much one does that has more than there may be.
pub(crate) fn tell_plan(alloc: Global, full: bool, out: &mut Told) {
    let mut builder = PlanBuilder::new(alloc);
    let _ = declare_all(&mut builder, &mut [false; 8]);
    if full {
        fill(&mut builder);
    }
    let plan = builder.finish();
    if !full {
        tell_marks(&are_names_right(&plan), b"right ", b"WRONG ", out);
        tell_marks(&are_routes_right(&plan), b"right ", b"WRONG ", out);
    }
    tell_sizes(&plan, out);
}

/// Declares the small plan with one request for memory refused, marks what found none, and returns
/// whether the request came.
fn declare_without(alloc: Global, request: u64, wanting: &mut [bool; 8], out: &mut Told) -> bool {
    let refusing = Refusing::new(alloc, request);
    let mut builder = PlanBuilder::new(&refusing);
    if !declare_all(&mut builder, wanting) {
        tell_broken(b"refused request", request, out);
    }
    drop(builder.finish());
    refusing.has_refused()
}

/// Refuses each request for memory in turn, until none is refused, and writes which declarations
/// take memory: the first of each kind.
pub(crate) fn tell_growths(alloc: Global, out: &mut Told) {
    let mut wanting = [false; 8];
    for request in 1..100u64 {
        if !declare_without(alloc, request, &mut wanting, out) {
            break;
        }
    }
    tell_marks(&wanting, b"takes ", b"none ", out);
    tell(b"memory\n", out);
}
