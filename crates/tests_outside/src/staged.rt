//! Doors over a network whose faults, and a clock whose seconds, the test sets.
use fsl_outside::{Accepted, Dial, Door, Failed, TcpDial, TcpDoor};
use std::cell::Cell;
use std::io;
use std::io::ErrorKind;
use std::net::{Ipv4Addr, Net, OpenListener, SocketAddr, TcpListener, TcpStream};
use std::os::fd::{AsRawFd, RawFd};
use std::sync::Arc;
use std::test::Fail;
use std::time::{Clock, Duration};

/// What the clock shows, in seconds, and how many of its next calls fail.
#[derive(Drop)]
struct Hand {
    seconds: Cell<u64>,
    failing: Cell<u64>,
}

/// The network of this machine with that clock.
#[derive(Clone, Copy, Drop)]
struct Staged<'a>(&'a Hand);

impl<'a> Staged<'a> {
    fn show(&self) -> io::Result<Duration> {
        let failing = self.0.failing.get();
        if failing > 0 {
            self.0.failing.set(failing - 1);
            return Err(io::Error::from(ErrorKind::Other));
        }
        Ok(Duration::from_secs(self.0.seconds.get()))
    }
}

impl<'a> Clock for Staged<'a> {
    fn monotonic(&self) -> io::Result<Duration> {
        self.show()
    }

    fn since_1970(&self) -> io::Result<Duration> {
        self.show()
    }
}

/// A listening socket whose first accepts fail with these errors of the system.
#[derive(Drop)]
struct Faulty {
    inner: TcpListener,
    codes: &'static [i32],
    accepts: Cell<usize>,
}

impl OpenListener for Faulty {
    type Stream = TcpStream;

    fn accept(&self) -> io::Result<(TcpStream, SocketAddr)> {
        let at = self.accepts.get();
        self.accepts.set(at.saturating_add(1));
        match self.codes.get(at) {
            Some(code) => Err(io::Error::from_raw_os_error(*code)),
            None => self.inner.accept(),
        }
    }
}

impl AsRawFd for Faulty {
    fn as_raw_fd(&self) -> RawFd {
        self.inner.as_raw_fd()
    }
}

impl<'a> Net for Staged<'a> {
    type Stream = TcpStream;

    type Listener = Faulty;

    fn bind(&self, _addr: SocketAddr) -> io::Result<Faulty> {
        Err(io::Error::from(ErrorKind::Unsupported))
    }

    fn connect(&self, _addr: SocketAddr) -> io::Result<TcpStream> {
        Err(io::Error::from(ErrorKind::Unsupported))
    }
}

/// A clock that shows 0 and doesn't fail.
fn at_zero() -> Hand {
    Hand {
        seconds: Cell::new(0),
        failing: Cell::new(0),
    }
}

/// A door whose first accepts fail so, and its address.
fn door<'a>(
    rt: HostRuntime,
    hand: &'a Hand,
    codes: &'static [i32],
) -> io::Result<(TcpDoor<Staged<'a>>, String)> {
    let inner = TcpListener::bind(&rt, SocketAddr::from((Ipv4Addr::LOCALHOST, 0)))?;
    let address = inner.local_addr()?;
    let listener = Faulty {
        inner,
        codes,
        accepts: Cell::new(0),
    };
    Ok((
        TcpDoor::over(Staged(hand), Arc::new(rt.alloc(), listener)?),
        format!(in rt.alloc(); "{address}")?,
    ))
}

/// The same door, and a dial to it.
fn pair<'a>(
    rt: HostRuntime,
    hand: &'a Hand,
    codes: &'static [i32],
) -> io::Result<(TcpDoor<Staged<'a>>, TcpDial<HostRuntime>)> {
    let (door, address) = door(rt, hand, codes)?;
    Ok((door, TcpDial::new(rt, address)))
}

/// What Linux hands on of a connection that broke off before it was taken.
const BROKEN_OFF: [i32; 10] = [103, 104, 100, 101, 113, 71, 92, 112, 64, 95];

/// Too many open files.
const OWN_FAULT: [i32; 1] = [24];

/// Whether a connection begins and is taken, and no accept fails.
fn takes<A: Door, N: Dial>(door: &mut A, dial: &mut N) -> bool {
    let done = [
        dial.connect().is_ok(),
        door.accept() == Ok(Accepted::Connection),
        door.accept_faults() == 0,
    ];
    done == [true; 3]
}

/// Whether the first accept fails and is counted, and the second one takes the connection.
fn fails_once<A: Door, N: Dial>(door: &mut A, dial: &mut N) -> bool {
    let done = [
        dial.connect().is_ok(),
        door.accept() == Err(Failed),
        door.accept_faults() == 1,
        door.accept() == Ok(Accepted::Connection),
        door.accept_faults() == 1,
    ];
    done == [true; 5]
}

/// Whether of two connections the first, which can't be timed, is let go, and the second one is taken.
fn takes_second<A: Door, N: Dial>(
    door: &mut A,
    first: &mut N,
    second: &mut N,
    hand: &Hand,
) -> bool {
    let begun = [first.connect().is_ok(), second.connect().is_ok()];
    hand.failing.set(1);
    let taken = [
        door.accept() == Ok(Accepted::Connection),
        door.write(b"x") == Ok(1),
    ];
    let found = [
        first.read(&mut [0u8; 2]) == Ok(0),
        second.read(&mut [0u8; 2]) == Ok(1),
    ];
    [begun, taken, found] == [[true; 2]; 3]
}

/// Whether it is so of a door and two dials to it.
fn passes_over_untimed(rt: HostRuntime) -> io::Result<bool> {
    let hand = at_zero();
    let (mut door, address) = door(rt, &hand, &[])?;
    let mut first = TcpDial::new(rt, address.clone()?);
    let mut second = TcpDial::new(rt, address);
    Ok(takes_second(&mut door, &mut first, &mut second, &hand))
}

/// A connection that can't be timed is let go, and the next one taken.
#[test]
fn a_door_passes_over_what_has_no_time(rt: HostRuntime) -> Result<(), Fail> {
    assert!(rt; passes_over_untimed(rt)?);
    Ok(())
}

/// Whether a read is done within sixty seconds, and none later.
fn reads_for_a_minute<A: Door>(door: &mut A, hand: &Hand) -> bool {
    hand.seconds.set(59);
    let within = door.read(&mut [0u8; 1]) == Ok(1);
    hand.seconds.set(60);
    let later = door.read(&mut [0u8; 1]) == Err(Failed);
    within && later
}

/// Whether the first write, after ten minutes, gives sixty seconds more, and no write is done later.
fn answers_for_a_minute<A: Door>(door: &mut A, hand: &Hand) -> bool {
    hand.seconds.set(600);
    let begun = door.write(b"a") == Ok(1);
    hand.seconds.set(659);
    let within = [
        begun,
        door.read(&mut [0u8; 1]) == Ok(1),
        door.write(b"b") == Ok(1),
    ];
    hand.seconds.set(660);
    let later = door.write(b"c") == Err(Failed);
    within == [true; 3] && later
}

/// Whether both hold of a connection that begins at 0 with three bytes.
fn is_timed<A: Door, N: Dial>(door: &mut A, dial: &mut N, hand: &Hand) -> bool {
    let done = [
        dial.connect().is_ok(),
        dial.write(b"ask") == Ok(3),
        door.accept() == Ok(Accepted::Connection),
        reads_for_a_minute(door, hand),
        answers_for_a_minute(door, hand),
    ];
    done == [true; 5]
}

/// What is tried of a door with one dial to it.
#[derive(Clone, Copy)]
enum Trial {
    BrokenOff,
    OwnFault,
    Timed,
}

/// How the first accepts of a trial's door fail.
fn codes_of(trial: Trial) -> &'static [i32] {
    match trial {
        Trial::BrokenOff => &BROKEN_OFF,
        Trial::OwnFault => &OWN_FAULT,
        Trial::Timed => &[],
    }
}

/// Whether a trial holds. All trials go through this one function, as the door and the dial that it lets go are dear to prove.
fn holds(rt: HostRuntime, trial: Trial) -> io::Result<bool> {
    let hand = at_zero();
    let (mut door, mut dial) = pair(rt, &hand, codes_of(trial))?;
    Ok(match trial {
        Trial::BrokenOff => takes(&mut door, &mut dial),
        Trial::OwnFault => fails_once(&mut door, &mut dial),
        Trial::Timed => is_timed(&mut door, &mut dial, &hand),
    })
}

#[test]
fn a_door_passes_over_what_broke_off(rt: HostRuntime) -> Result<(), Fail> {
    assert!(rt; holds(rt, Trial::BrokenOff)?);
    Ok(())
}

#[test]
fn a_door_fails_where_its_socket_does(rt: HostRuntime) -> Result<(), Fail> {
    assert!(rt; holds(rt, Trial::OwnFault)?);
    Ok(())
}

/// Sixty seconds until the first write, and sixty from there on.
#[test]
fn the_time_begins_anew_at_the_first_write(rt: HostRuntime) -> Result<(), Fail> {
    assert!(rt; holds(rt, Trial::Timed)?);
    Ok(())
}
