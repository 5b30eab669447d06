//! A packet through staged code, with every unit at hand, and the direct execution of the same transaction.
ghost use Rattle.std.specs.Prelude.{◌≡◌, ◌<◌, ◌≤◌, length, vec_len, IfOk};

use crate::figure::{Figure, Trouble};
use code_forms::{StagedCode, Unit};
use domino_compile::{Compiled, compile};
use domino_eval::Bench;
use mp5_words::NoMemory;
use std::alloc::{AllocError, Global};
use std::rt::Clock;
use std::time::Instant;

/// How many packets there are.
const PACKETS: u32 = 4_096;

/// How often they all run.
const TURNS: u32 = 100;

/// How many flows they are of.
const FLOWS: u32 = 64;

/// Flowlet switching: a flow may take a new hop after a pause.
const FLOWLET: &str = "\
#define FLOWLETS 8000
#define THRESHOLD 500
#define HOPS 10
#define NEVER -1000000
struct Packet { int arrival; int sport; int dport; int id; int new_hop; int next_hop; };
int last_time[FLOWLETS] = {NEVER};
int saved_hop[FLOWLETS];
void flowlet(struct Packet pkt) {
    pkt.new_hop = hash3(pkt.sport, pkt.dport, pkt.arrival) % HOPS;
    pkt.id = hash2(pkt.sport, pkt.dport) % FLOWLETS;
    if (pkt.arrival - last_time[pkt.id] > THRESHOLD) { saved_hop[pkt.id] = pkt.new_hop; }
    last_time[pkt.id] = pkt.arrival;
    pkt.next_hop = saved_hop[pkt.id];
}
";

/// How many fields its packets have.
const WIDTH: usize = 6;

/// A packet's fields, in order of declaration.
type Fields = [i32; WIDTH];

/// For each group 0 where a packet has no place at it, else the unit's number plus 1; 0 behind all groups.
type Places = [u32; 16];

/// The figures of staged code and of the direct execution, for each packet.
#[derive(Clone, Copy)]
pub struct Runs {
    pub staged: Figure,
    pub direct: Figure,
}

/// Measures both on the same packets, which have to end as the same.
pub fn measure(clock: &impl Clock, alloc: Global) -> Result<Runs, Trouble> {
    let Ok(compiled) = compile(alloc, FLOWLET.as_bytes()) else {
        return Err(Trouble::Refused);
    };
    let headers = headers(alloc).map_err(NoMemory::from)?;
    let runs = measure_both(clock, alloc, &compiled, &headers)?;
    if !runs.staged.agrees_with(&runs.direct) {
        return Err(Trouble::Differs);
    }
    Ok(runs)
}

// The packets as they come: of each flow, some pauses are short and some are long.
fn headers(alloc: Global) -> Result<Vec<Fields>, AllocError> {
    let mut headers = Vec::with_capacity(alloc, PACKETS as usize)?;
    let mut state = 7;
    let mut arrival: i32 = 0;
    for _ in 0..PACKETS {
        let port = 1024 + next(&mut state) % FLOWS;
        headers.push([arrival, port as i32, 80, 0, 0, 0])?;
        arrival = arrival.wrapping_add((next(&mut state) % 16) as i32);
    }
    Ok(headers)
}

// The next number of a linear congruential generator: the upper half of its state.
fn next(state: &mut u32) -> u32
    ensures { result < 65536 }
{
    *state = state.wrapping_mul(1_664_525).wrapping_add(1_013_904_223);
    *state / 65_536
}

// Measures both in turn, so that the machine's other work slows both alike.
fn measure_both(
    clock: &impl Clock,
    alloc: Global,
    compiled: &Compiled,
    headers: &[Fields],
) -> Result<Runs, Trouble> {
    let code = &compiled.code;
    if code.fields() as usize != WIDTH {
        return Err(Trouble::Refused);
    }
    let places = places_of(alloc, code, headers).map_err(NoMemory::from)?;
    let mut units = all_units(alloc, code)?;
    let mut env = vec![in alloc; 0; code.slots() as usize].map_err(NoMemory::from)?;
    let env = env.as_mut_slice();
    let mut ends = Vec::from_slice(alloc, headers).map_err(NoMemory::from)?;
    let mut bench = Bench::new(alloc, &compiled.source)?;
    let mut staged = Figure::none();
    let mut direct = Figure::none();
    for _ in 0..TURNS {
        let start = Instant::now(clock)?;
        let touched = run_all(code, headers, &places, &mut units, env, &mut ends);
        staged.add(clock, start, PACKETS, touched)?;
        staged.read(sum_of(&ends));
        let mut packets = Vec::from_slice(alloc, headers).map_err(NoMemory::from)?;
        let start = Instant::now(clock)?;
        let touched = execute_all(&mut bench, &mut packets);
        direct.add(clock, start, PACKETS, touched)?;
        direct.read(sum_of(&packets));
    }
    Ok(Runs { staged, direct })
}

// The places of each of these packets.
fn places_of(
    alloc: Global,
    code: &StagedCode,
    headers: &[Fields],
) -> Result<Vec<Places>, AllocError>
    requires { code.now.fields ≡ WIDTH }
{
    let mut room = vec![in alloc; 0; code.slots() as usize]?;
    let room = room.as_mut_slice();
    let mut all = Vec::with_capacity(alloc, headers.len())?;
    for header in headers {
        let mut places = [0; 16];
        code.places(header, room, &mut places);
        all.push(places)?;
    }
    Ok(all)
}

// Every unit of each group, by group and number.
fn all_units(alloc: Global, code: &StagedCode) -> Result<Vec<Vec<Unit>>, NoMemory>
    ensures { IfOk result (λ units. vec_len units ≡ length code.now.groups) }
{
    let groups = code.groups();
    let mut all = Vec::with_capacity(alloc, groups as usize)?;
    for g in 0..groups {
        all.push_reserved(units_of(alloc, code, g)?);
    }
    Ok(all)
}

// Every unit of a group.
fn units_of(alloc: Global, code: &StagedCode, g: u32) -> Result<Vec<Unit>, NoMemory>
    requires { g < length code.now.groups }
{
    let count = code.units(g);
    let mut units = Vec::with_capacity(alloc, count as usize)?;
    for u in 0..count {
        units.push_reserved(code.unit(alloc, g, u)?);
    }
    Ok(units)
}

// Runs staged code on one packet after another. Gives the sum of the sets of arrays that each touched.
fn run_all(
    code: &StagedCode,
    headers: &[Fields],
    places: &[Places],
    units: &mut [Vec<Unit>],
    env: &mut [i32],
    packets: &mut [Fields],
) -> u32
    requires fields { code.now.fields ≡ WIDTH }
    requires units { length units.old ≡ length code.now.groups }
    requires env { WIDTH ≤ length env.old }
{
    let mut touched: u32 = 0;
    for ((header, row), packet) in headers.iter().zip(places).zip(packets.iter_mut()) {
        let set = run_packet(code, header, row, units, env, packet);
        touched = touched.wrapping_add(u32::from(set));
    }
    touched
}

// Runs staged code on a packet. Gives the set of the arrays that it touched.
fn run_packet(
    code: &StagedCode,
    header: &Fields,
    places: &Places,
    units: &mut [Vec<Unit>],
    env: &mut [i32],
    packet: &mut Fields,
) -> u16
    requires fields { code.now.fields ≡ WIDTH }
    requires units { length units.old ≡ length code.now.groups }
    requires env { WIDTH ≤ length env.old }
{
    let (front, _) = env.split_at_mut(WIDTH);
    front.copy_from_slice(header);
    let mut touched = 0;
    let groups = code.groups();
    for g in 0..groups {
        code.run_block(g, env);
        touched |= pass_group(code, g, places[g as usize], &mut units[g as usize], env);
    }
    code.run_block(groups, env);
    code.finish(env, packet);
    touched
}

// Serves a packet at the unit of its place at a group, or takes it past the group where it has none. Gives the set of
// the arrays that it touched there.
fn pass_group(code: &StagedCode, g: u32, place: u32, units: &mut [Unit], env: &mut [i32]) -> u16
    requires { g < length code.now.groups }
{
    if place == 0 {
        code.skip(g, env);
        return 0;
    }
    match units.get_mut(place as usize - 1) {
        Some(unit) => code.serve(g, env, unit),
        None => 0,
    }
}

// Executes the transaction on one packet after another, each in its place. Gives the sum of the sets of arrays that
// each touched.
fn execute_all(bench: &mut Bench<'_>, packets: &mut [Fields]) -> u32 {
    let mut touched: u32 = 0;
    for packet in packets.iter_mut() {
        touched = touched.wrapping_add(u32::from(bench.packet(packet)));
    }
    touched
}

// The sum of all fields of these packets.
fn sum_of(packets: &[Fields]) -> u32 {
    let mut sum: u32 = 0;
    for [arrival, sport, dport, id, new_hop, next_hop] in packets {
        let fields = arrival
            .wrapping_add(*sport)
            .wrapping_add(*dport)
            .wrapping_add(*id)
            .wrapping_add(*new_hop)
            .wrapping_add(*next_hop);
        sum = sum.wrapping_add(fields.cast_unsigned());
    }
    sum
}
