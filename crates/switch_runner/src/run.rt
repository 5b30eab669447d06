//! The sequential run.

ghost use Rattle.std.specs.Prelude.{◌≡◌, ◌<◌, ◌≤◌, ◌+◌, ◌*◌, ◌++◌, [], length, take, drop, slice_index, IfOk, vec_len, vec_capacity};
ghost use Rattle.std.specs.List.{flat_map};
ghost use Rattle.capture_io.specs.Rows.{rows};
ghost use Rattle.mp5_words.specs.Cells.{cells_at};
ghost use Rattle.domino_tree.specs.Value.{names_of, cell_counts, HasCells};
ghost use Rattle.domino_names.specs.Infos.{infos_of};
ghost use Rattle.domino_eval.specs.Parts.{executed};
ghost use Rattle.report_text.specs.Report.{cell_count};
ghost use Rattle.switch_runner.specs.Running.{IsEnd, run_bench};
ghost use Rattle.switch_runner.specs.Top.{AreWide};

use capture_io::Capture;
use domino_check::{ArrayInfo, Checked};
use domino_eval::Bench;
use mp5_words::NoMemory;
use std::alloc::Global;
use switch_net::Answer;

/// Executes the transaction on the packet that begins at this word, in its place.
fn run_packet(bench: &mut Bench<'_>, packets: &mut [i32], start: usize, width: usize)
    requires { start + width ≤ length packets.old }
    ensures packet { packets.new ≡ take start packets.old
        ++ ((executed bench.old (take width (drop start packets.old))).store.fields
        ++ drop (start + width) packets.old) }
    ensures wide { length (executed bench.old (take width (drop start packets.old))).store.fields
        ≡ width }
    ensures cells { bench.new ≡ record {
      program = bench.old.program;
      cells = (executed bench.old (take width (drop start packets.old))).store.cells;
    } }
{
    bench.packet(&mut packets[start..start + width]);
}

/// Runs the transaction on one packet after another, in arrival order, each in its place.
fn run_packets(bench: &mut Bench<'_>, packets: &mut [i32], count: u32, width: usize)
    requires { length packets.old ≡ count * width }
    ensures packets { packets.new
        ≡ flat_map (λ p. p) (run_bench bench.old (rows count width packets.old)).packets }
    ensures cells { bench.new ≡ record {
      program = bench.old.program;
      cells = (run_bench bench.old (rows count width packets.old)).cells;
    } }
{
    for t in 0..count {
        run_packet(bench, packets, t as usize * width, width);
    }
}

/// How many cells the arrays have in all.
fn count_cells(infos: &[ArrayInfo]) -> usize
    requires { length infos.now ≤ 16 }
    ensures { result ≡ cell_count infos.now }
{
    let mut total = 0;
    for info in infos {
        total += info.length as usize;
    }
    total
}

/// Appends the cells of an array, of which there are so many. There is room for them.
fn push_array(bench: &Bench<'_>, array: u32, count: u32, cells: &mut Vec<i32>)
    requires array { array < length (names_of bench.now.program).arrays }
    requires declared { slice_index (cell_counts (names_of bench.now.program)) array ≡ count }
    requires held { length (cells_at bench.now.cells array) ≡ count }
    requires room { vec_len cells.old + count ≤ vec_capacity cells.old }
    ensures items { cells.new.items ≡ cells.old.items ++ cells_at bench.now.cells array }
    ensures len { vec_len cells.new ≡ vec_len cells.old + count }
    ensures capacity { vec_capacity cells.new ≡ vec_capacity cells.old }
{
    for i in 0..count {
        cells.push_reserved(bench.cell(array, i));
    }
}

/// Appends the cells of one array after another. There is room for them.
fn push_arrays(bench: &Bench<'_>, infos: &[ArrayInfo], cells: &mut Vec<i32>)
    requires few { length infos.now ≤ 16 }
    requires infos { infos.now ≡ infos_of bench.now.program }
    requires held { HasCells (names_of bench.now.program) bench.now.cells }
    requires empty { cells.old.items ≡ [] }
    requires room { cell_count infos.now ≤ vec_capacity cells.old }
    ensures { cells.new.items ≡ flat_map (λ c. c) bench.now.cells }
{
    for (array, info) in infos.iter().enumerate() {
        push_array(bench, array as u32, info.length, cells);
    }
}

/// The cells of a bench, one array after another in order of declaration.
fn all_cells(alloc: Global, checked: &Checked, bench: &Bench<'_>) -> Result<Vec<i32>, NoMemory>
    requires of { bench.now.program ≡ checked.now }
    requires held { HasCells (names_of bench.now.program) bench.now.cells }
    ensures { IfOk result (λ cells. cells.items ≡ flat_map (λ c. c) bench.now.cells) }
{
    let infos = checked.arrays();
    let mut cells = Vec::with_capacity(alloc, count_cells(infos))?;
    push_arrays(bench, infos, &mut cells);
    Ok(cells)
}

/// Runs the transaction on one packet after another, in arrival order and in the capture's own table, with
/// cells that have their start values. The answer has packets and cells, and nothing that only a network has.
pub(crate) fn run_one(
    alloc: Global,
    checked: &Checked,
    capture: Capture,
) -> Result<Answer, NoMemory>
    requires { AreWide (length checked.now.packet.fields) capture }
    ensures { IfOk result (λ answer. IsEnd checked.now capture
        answer.arrivals answer.packets.items answer.cells.items) }
{
    let mut bench = Bench::new(alloc, checked)?;
    let count = capture.count();
    let width = checked.field_names().count() as usize;
    let mut packets = capture.into_words();
    run_packets(&mut bench, packets.as_mut_slice(), count, width);
    let cells = all_cells(alloc, checked, &bench)?;
    Ok(Answer {
        arrivals: count,
        packets,
        cells,
        counts: Vec::new(alloc),
        by: Vec::new(alloc),
        touched: Vec::new(alloc),
        plans: Vec::new(alloc),
    })
}
