use crate::play::play_live;
use recalc_loop::{Gate, Point};
use run_status::Status;
use ss_base::{MemSink, MemSource, Site};
use std::alloc::Global;
use std::sync::Wait;
use std::sync::atomic::AtomicBool;
use std::sync::atomic::Ordering::SeqCst;
use std::test::Fail;
use std::thread::{Threads, yield_now};

/// How many turns a thread waits at most.
const MOST_TURNS: u32 = 10_000_000;

/// Each site has two edits.
const TWO_SITES: &[u8] =
    b"sheet 1 1\nsite a\nsite b\na set A1 1\nb set A1 2\na set A1 3\nb set A1 4\nend\n";

/// One site pushes, and the other one has six edits and reads.
const SIX_LINES: &[u8] =
    b"sheet 1 1\nsite a\nsite b\nb set A1 1\nb push\na set A1 2\na read A1\na clear A1\na read A1\na set A1 3\na read A1\nend\n";

/// Where a thread is held, and what it waits for there.
#[derive(Clone, Copy, Debug, PartialEq, Eq)]
enum Hold {
    /// Each site at its second line, for the other's second line.
    SecondLines,
    /// A publication, for the sixth line of the first site.
    Publication,
    /// The first site at its sixth line, for a publication.
    SixthLine,
}

/// Holds a thread until another one has met a point.
#[derive(Drop)]
struct Held {
    hold: Hold,
    first: AtomicBool,
    second: AtomicBool,
    /// Whether a thread waited in vain.
    late: AtomicBool,
}

impl Held {
    fn new(hold: Hold) -> Held {
        Held {
            hold,
            first: AtomicBool::new(false),
            second: AtomicBool::new(false),
            late: AtomicBool::new(false),
        }
    }

    fn wait_for(&self, flag: &AtomicBool) {
        for _ in 0..MOST_TURNS {
            if flag.load(SeqCst) {
                return;
            }
            yield_now();
        }
        self.late.store(true, SeqCst);
    }

    // The first site at one of its lines.
    fn at_first(&self, line: u32) {
        match self.hold {
            Hold::SecondLines if line == 6 => {
                self.first.store(true, SeqCst);
                self.wait_for(&self.second);
            }
            Hold::Publication if line == 11 => self.first.store(true, SeqCst),
            Hold::SixthLine if line == 11 => self.wait_for(&self.second),
            _ => {}
        }
    }

    // The second site at one of its lines.
    fn at_second(&self, line: u32) {
        if self.hold == Hold::SecondLines && line == 7 {
            self.second.store(true, SeqCst);
            self.wait_for(&self.first);
        }
    }

    fn at_publication(&self) {
        match self.hold {
            Hold::SecondLines => {}
            Hold::Publication => self.wait_for(&self.first),
            Hold::SixthLine => self.second.store(true, SeqCst),
        }
    }
}

impl Gate for Held {
    fn at<R: Wait>(&self, _rt: &R, point: Point) {
        match point {
            Point::Line { site, line } => {
                if site == Site(1) {
                    self.at_first(line);
                } else {
                    self.at_second(line);
                }
            }
            Point::Publish { length } => {
                if length > 0 {
                    self.at_publication();
                }
            }
        }
    }
}

// How a run ends, and whether a thread of it waited in vain.
fn runs<R: Threads + Wait + Sync>(
    rt: &R,
    alloc: Global,
    script: &[u8],
    hold: Hold,
) -> Result<(Status, bool), Fail> {
    let mut source = MemSource::new(alloc, script, &[])?;
    let mut sink = MemSink::new(alloc, 4096, &[])?;
    let gate = Held::new(hold);
    let end = play_live(rt, alloc, &[], &mut source, &mut sink, &gate);
    Ok((end.status, gate.late.load(SeqCst)))
}

#[test]
fn sites_run_beside_each_other(rt: HostRuntime) -> Result<(), Fail> {
    let end = runs(&rt, rt.alloc(), TWO_SITES, Hold::SecondLines)?;
    assert_eq!(rt; end, (Status::Done, false));
    Ok(())
}

#[test]
fn a_site_runs_on_while_values_are_published(rt: HostRuntime) -> Result<(), Fail> {
    let end = runs(&rt, rt.alloc(), SIX_LINES, Hold::Publication)?;
    assert_eq!(rt; end, (Status::Done, false));
    Ok(())
}

#[test]
fn values_are_published_while_a_site_runs(rt: HostRuntime) -> Result<(), Fail> {
    let end = runs(&rt, rt.alloc(), SIX_LINES, Hold::SixthLine)?;
    assert_eq!(rt; end, (Status::Done, false));
    Ok(())
}
