//! Pipes of a network run beside each other: two of them ask their gate at the same time.
ghost use Rattle.std.specs.Prelude.{◌<◌};

use crate::fixture::{COUNT, COUNTED, packets, sink, store_of, text_of, words_of};
use std::sync::atomic::{AtomicBool, Ordering};
use std::test::Fail;
use switch_runner::{Gate, Threads, switch_top};

// The looks of a question at another one.
const LOOKS: u32 = 100_000;

// A gate that learns whether two pipes ask at the same time, in the first phase of a run.
#[derive(Drop)]
struct Meeting {
    asks: [AtomicBool; 2],
    met: AtomicBool,
}

impl Meeting {
    // Whether two pipes have asked at the same time, now or before.
    fn meets(&self, other: usize) -> bool
        requires { other < 2 }
    {
        for _ in 0..LOOKS {
            if self.asks[other].load(Ordering::SeqCst) {
                self.met.store(true, Ordering::SeqCst);
            }
            if self.met.load(Ordering::SeqCst) {
                return true;
            }
        }
        false
    }
}

impl Gate for Meeting {
    fn may_turn(&self, phase: u64, pipe: u32) -> bool {
        if phase > 0 {
            return true;
        }
        let own = (pipe % 2) as usize;
        self.asks[own].store(true, Ordering::SeqCst);
        let may = self.meets(1 - own);
        self.asks[own].store(false, Ordering::SeqCst);
        may
    }
}

// Only threads that run beside each other ask at the same time: a network that gives its pipes turns on one thread, or
// runs one behind the other, ends too, since a pipe needn't ask for ever, but its questions never meet.
#[test]
fn pipes_ask_at_once(rt: HostRuntime) -> Result<(), Fail> {
    let alloc = rt.alloc();
    let gate = Meeting {
        asks: [AtomicBool::new(false), AtomicBool::new(false)],
        met: AtomicBool::new(false),
    };
    let words = words_of(alloc, "mp5 run p c --pipelines 2")?;
    let capture = packets(alloc, &[10, 20, 30])?;
    let mut store = store_of(alloc, COUNT.as_bytes(), &capture, 65536, &[])?;
    let mut out = sink(alloc, 65536, &[])?;
    let mut err = sink(alloc, 65536, &[])?;
    let status = switch_top(
        &rt,
        alloc,
        &words,
        &mut store,
        &mut out,
        &mut err,
        &mut Threads::new(&gate),
    );
    assert_eq!(rt; status.code(), 0);
    assert_eq!(rt; text_of(&out), COUNTED);
    assert!(rt;
        gate.met.load(Ordering::SeqCst),
        "no two pipes asked at the same time"
    );
    Ok(())
}
