//! Case resume-notice, after an INIT that offers no resends.
use super::*;
use crate::run::holding;
use crate::texts::{AGREED_SHORT, INIT_SHORT, LOOKUP_HELLO, NOT_THERE};

// Whether the INIT is answered, `resume` sends nothing and changes nothing, and a session goes on.
fn refused_between(alloc: Global) -> Result<[bool; 3], StoreFault> {
    let init = plain(alloc, hex(alloc, INIT_SHORT)?, hex(alloc, AGREED_SHORT)?);
    let refused = plain(alloc, hex(alloc, LOOKUP_HELLO)?, Vec::new(alloc));
    let lookup = plain(alloc, hex(alloc, LOOKUP_HELLO)?, hex(alloc, NOT_THERE)?);
    let mut keeper = new_keeper(alloc)?;
    let agreed = serve_on(alloc, &mut keeper, init);
    let resumed = resume_on(alloc, &mut keeper, refused, AT_1000);
    let served = serve_on(alloc, &mut keeper, lookup);
    Ok([
        agreed.is(EndKind::End, holding(1, 0, 1)),
        resumed.is(EndKind::NotOffered, holding(1, 0, 1)),
        served.is(EndKind::End, holding(1, 0, 2)),
    ])
}

#[test]
fn resume_not_offered(rt: HostRuntime) -> Result<(), StoreFault> {
    assert_eq!(rt; refused_between(rt.alloc())?, [true; 3]);
    Ok(())
}
