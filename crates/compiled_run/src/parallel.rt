//! The run of a network over compiled code, on threads.
ghost use Rattle.std.specs.Prelude.{◌≡◌, length, All, None, IfOk, IfErr};
ghost use Rattle.switch_net.specs.Marks.{HasRun};
ghost use Rattle.compiled_run.specs.SourceRun.{IsSourceAnswer, source_mark};

use capture_io::Capture;
use domino_compile::Compiled;
use mp5_words::{NoMemory, Settings};
use std::alloc::Global;
use std::sync::Wait;
use std::thread::Threads;
use switch_net::{Answer, Fabric, Network};

/// Runs the code on the headers of a capture, with a thread for each pipe. The answer is what the
/// source gives, whatever the interleaving is.
pub fn run<R: Threads + Wait + Sync, F: Fabric>(
    rt: &R,
    alloc: Global,
    fabric: &mut F,
    compiled: &Compiled,
    capture: &Capture,
    settings: &Settings,
) -> Result<Answer, NoMemory>
    requires wide { All (λ header. length header ≡ length compiled.now.program.packet.fields)
        capture.now }
    ensures answer { IfOk result (IsSourceAnswer compiled.now.program compiled.now.code capture.now
        settings.now) }
    ensures run { IfOk result (λ a. HasRun
        (source_mark compiled.now.program compiled.now.code capture.now settings.now None)
        (F.seen fabric.old) (F.seen fabric.new)) }
    ensures none { IfErr result (λ e. fabric.new ≡ fabric.old) }
{
    let network = Network::build(rt, alloc, &compiled.code, capture, settings)?;
    let ended = fabric.run(rt, network);
    Ok(ended.answer)
}
