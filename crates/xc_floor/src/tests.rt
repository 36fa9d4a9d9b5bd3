ghost use Rattle.std.specs.Prelude.{◌≡◌, true};
ghost use Rattle.xc_record.specs.Headers.{are_headers};

use super::*;
use std::alloc::AllocError;
use xc_record::Header;

fn header(id: u32, lo: u16, hi: u16, parent: Option<u32>) -> Header
    ensures { result ≡ record { id = id; lo = lo; hi = hi; parent = parent } }
{
    Header { id, lo, hi, parent }
}

// Two roots, the second with two children, of which the first has two.
#[tactic(auto, unfolding(xc_record::specs::Headers::are_headers, xc_record::specs::Headers::headers_fit))]
fn headers() -> [Header; 6]
    ensures { are_headers result ≡ true }
{
    [
        header(0, 0, 99, None),
        header(1, 100, 65535, None),
        header(2, 100, 199, Some(1)),
        header(3, 200, 65535, Some(1)),
        header(4, 100, 149, Some(2)),
        header(5, 150, 199, Some(2)),
    ]
}

// Raises a tablet that has started and isn't closed.
fn raise(floor: &mut Floor, id: u32, t: u64) {
    if floor.has_started(id) && !floor.is_closed(id) {
        floor.raise(id, t);
    }
}

// Splits one that has children too.
fn split(floor: &mut Floor, id: u32) {
    if floor.has_started(id) && !floor.is_closed(id) && floor.has_children(id) {
        floor.split(id);
    }
}

#[test]
fn children_that_nobody_polled_count_with_their_parents_value(
    rt: HostRuntime,
) -> Result<(), AllocError> {
    let headers = headers();
    let mut floor = Floor::new(rt.alloc(), &headers)?;
    assert!(rt; floor.headers() == headers.as_slice() && floor.least() == 0);
    raise(&mut floor, 0, 30);
    raise(&mut floor, 1, 20);
    raise(&mut floor, 1, 10);
    assert!(rt; floor.least() == 20);
    split(&mut floor, 1);
    assert!(rt; floor.least() == 20 && floor.is_closed(1) && !floor.is_closed(2));
    raise(&mut floor, 3, 25);
    assert!(rt; floor.least() == 20);
    raise(&mut floor, 2, 40);
    split(&mut floor, 2);
    assert!(rt; floor.least() == 25);
    raise(&mut floor, 3, 60);
    assert!(rt; floor.least() == 30);
    raise(&mut floor, 0, 50);
    assert!(rt; floor.least() == 40);
    Ok(())
}
