//! What the machine's clock tells.
use bf_lane::{MachineClock, TimeSource};
use std::io;
use std::sync::atomic::{AtomicUsize, Ordering};
use std::test::Fail;
use std::time::Duration;

/// A machine whose monotonic clock shows these seconds at its readings, one after the other, and can't be read where
/// None stands, or behind the last. It has no wall clock.
#[derive(Drop)]
struct Readings {
    seconds: [Option<u64>; 5],
    reads: AtomicUsize,
}

impl Readings {
    fn of(seconds: [Option<u64>; 5]) -> Readings {
        Readings {
            seconds,
            reads: AtomicUsize::new(0),
        }
    }
}

impl std::time::Clock for Readings {
    fn monotonic(&self) -> io::Result<Duration> {
        match self.seconds.get(self.reads.fetch_add(1, Ordering::SeqCst)) {
            Some(Some(seconds)) => Ok(Duration::from_secs(*seconds)),
            _ => Err(io::Error::from(io::ErrorKind::Other)),
        }
    }

    fn since_1970(&self) -> io::Result<Duration> {
        Err(io::Error::from(io::ErrorKind::Other))
    }
}

#[test]
fn a_clock_that_cannot_be_read_tells_what_it_told_before(rt: HostRuntime) -> Result<(), Fail> {
    let machine = Readings::of([Some(5), None, Some(7), None, Some(8)]);
    let mut clock = MachineClock::new(&machine);
    assert_eq!(rt; clock.now(), 0);
    assert_eq!(rt; clock.now(), 2);
    assert_eq!(rt; clock.now(), 2);
    assert_eq!(rt; clock.now(), 3);
    Ok(())
}

#[test]
fn a_clock_begins_where_it_is_first_read(rt: HostRuntime) -> Result<(), Fail> {
    let machine = Readings::of([None, None, Some(100), Some(103), None]);
    let mut clock = MachineClock::new(&machine);
    assert_eq!(rt; clock.now(), 0);
    assert_eq!(rt; clock.now(), 0);
    assert_eq!(rt; clock.now(), 3);
    Ok(())
}

#[test]
fn a_clock_never_runs_backwards(rt: HostRuntime) -> Result<(), Fail> {
    let machine = Readings::of([Some(10), Some(14), Some(11), Some(3), Some(15)]);
    let mut clock = MachineClock::new(&machine);
    assert_eq!(rt; clock.now(), 4);
    assert_eq!(rt; clock.now(), 4);
    assert_eq!(rt; clock.now(), 4);
    assert_eq!(rt; clock.now(), 5);
    Ok(())
}
