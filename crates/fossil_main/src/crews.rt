//! Makes crews over one listening socket.
ghost use Rattle.std.specs.Prelude.{◌≡◌, vec_len, IfOk, IfSome};

use fsl_outside::{NoGate, StdClock, StdSink, TcpDoor};
use fsl_serve::Crew;
use fsl_watch::LoggedDoor;
use std::alloc::{AllocError, Global};
use std::io::Stderr;
use std::net::Net;
use std::sync::Arc;
use std::time::Clock;

/// A crew over real sockets and the system's clock.
pub type RealCrew<R> = Crew<TcpDoor<R>, NoGate, StdClock<R>>;

/// A crew whose door writes a line for each connection to standard error.
pub type LoggedCrew<R> = Crew<LoggedDoor<TcpDoor<R>, StdSink<Stderr>, R>, NoGate, StdClock<R>>;

/// Makes so many crews, whose doors take the connections of one listening socket. Where there is none, each call of a
/// door fails.
pub fn crews<R: Net + Clock + Clone + Drop>(
    rt: &R,
    alloc: Global,
    listener: Option<R::Listener>,
    workers: u64,
) -> Result<Vec<RealCrew<R>>, AllocError>
where
    R::Listener: Drop,
    ensures { IfOk result (λ crews. vec_len crews ≡ workers) }
{
    match listener {
        Some(listener) => sharing(rt, alloc, &Arc::new(alloc, listener)?, workers),
        None => failing(rt, alloc, workers),
    }
}

/// Crews that share a socket.
fn sharing<R: Net + Clock + Clone + Drop>(
    rt: &R,
    alloc: Global,
    listener: &Arc<R::Listener, Global>,
    workers: u64,
) -> Result<Vec<RealCrew<R>>, AllocError>
    ensures { IfOk result (λ crews. vec_len crews ≡ workers) }
{
    let mut crews = Vec::new(alloc);
    for _worker in 0..workers {
        crews.push(Crew {
            door: TcpDoor::over(rt.clone()?, Arc::try_clone(listener)?),
            gate: NoGate,
            clock: StdClock::new(rt.clone()?),
        })?;
    }
    Ok(crews)
}

/// Crews whose doors fail.
fn failing<R: Net + Clock + Clone + Drop>(
    rt: &R,
    alloc: Global,
    workers: u64,
) -> Result<Vec<RealCrew<R>>, AllocError>
    ensures { IfOk result (λ crews. vec_len crews ≡ workers) }
{
    let mut crews = Vec::new(alloc);
    for _worker in 0..workers {
        crews.push(Crew {
            door: TcpDoor::none(),
            gate: NoGate,
            clock: StdClock::new(rt.clone()?),
        })?;
    }
    Ok(crews)
}

/// Gives the same crews doors that write a line for each connection, or `None` where the program is out of memory for
/// one.
pub fn logged<R: Net + Clock + Clone + Drop>(
    rt: &R,
    alloc: Global,
    err: Stderr,
    crews: Vec<RealCrew<R>>,
) -> Option<Vec<LoggedCrew<R>>>
    ensures { IfSome result (λ logged. vec_len logged ≡ vec_len crews) }
{
    let count = crews.len();
    let mut logged = Vec::new(alloc);
    for crew in crews {
        add_logged(rt, alloc, err, &mut logged, crew);
    }
    if logged.len() == count {
        Some(logged)
    } else {
        None
    }
}

/// Puts such a crew at the end, where there is memory for it.
fn add_logged<R: Net + Clock + Clone + Drop>(
    rt: &R,
    alloc: Global,
    err: Stderr,
    logged: &mut Vec<LoggedCrew<R>>,
    crew: RealCrew<R>,
) {
    if let Ok(watch) = rt.clone() {
        let Crew { door, gate, clock } = crew;
        let door = LoggedDoor::new(alloc, door, StdSink::new(err), watch);
        drop(logged.push(Crew { door, gate, clock }));
    }
}
