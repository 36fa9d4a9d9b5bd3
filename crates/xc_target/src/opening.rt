// How a target begins, and how the children of a closed source tablet are opened.
ghost use Rattle.std.specs.Prelude.{◌≡◌, ◌≤◌, ◌++◌, ◌∷◌, [], true, map, IfOk};
ghost use Rattle.std.specs.List.{AllZip};
ghost use Rattle.xc_record.specs.Bounds.{ranges, ranges_from, rises_from, are_bounds};
ghost use Rattle.xc_record.specs.Headers.{are_headers};
ghost use Rattle.xc_model.specs.Stands.{new_tablet};
ghost use Rattle.xc_poller.specs.Poller.{is_closed, new_poller};
ghost use Rattle.xc_target.specs.Target.{headers_of_pollers, new_tablets, Opens};

use std::alloc::Global;
use xc_base::NoMemory;
use xc_poller::Poller;
use xc_record::Header;
use xc_tablet::TargetTablet;

// Adds a new tablet of the hashes from `lo` to `hi`.
fn add_tablet(
    alloc: Global,
    tablets: &mut Vec<TargetTablet>,
    headers: &[Header],
    lo: u16,
    hi: u16,
) -> Result<(), NoMemory>
    requires range { lo ≤ hi }
    requires headers { are_headers headers.now ≡ true }
    ensures { IfOk result (λ _. tablets.new.items ≡ tablets.old.items ++ new_tablet lo hi headers.now ∷ []) }
{
    let tablet = TargetTablet::new(alloc, lo, hi, headers)?;
    Ok(tablets.push(tablet)?)
}

// Tablets of the hashes from `lo` on, the later ones from these hashes on.
fn tablets_from(
    alloc: Global,
    headers: &[Header],
    first: u16,
    bounds: &[u16],
) -> Result<Vec<TargetTablet>, NoMemory>
    requires headers { are_headers headers.now ≡ true }
    requires rises { rises_from first bounds.now ≡ true }
    ensures { IfOk result (λ tablets. tablets.items ≡ new_tablets headers.now (ranges_from first bounds.now)) }
{
    let mut tablets = Vec::new(alloc);
    let mut lo = first;
    for bound in bounds {
        add_tablet(alloc, &mut tablets, headers, lo, *bound - 1)?;
        lo = *bound;
    }
    add_tablet(alloc, &mut tablets, headers, lo, 65535)?;
    Ok(tablets)
}

/// Tablets that begin at these hashes. `NoMemory` where memory is out.
pub(crate) fn new_tablets(
    alloc: Global,
    headers: &[Header],
    bounds: &[u16],
) -> Result<Vec<TargetTablet>, NoMemory>
    requires headers { are_headers headers.now ≡ true }
    requires bounds { are_bounds bounds.now ≡ true }
    ensures { IfOk result (λ tablets. tablets.items ≡ new_tablets headers.now (ranges bounds.now)) }
{
    match bounds.split_first() {
        Some((first, rest)) => tablets_from(alloc, headers, *first, rest),
        None => Ok(Vec::new(alloc)),
    }
}

/// A new poller for each header. `NoMemory` where memory is out.
pub(crate) fn new_pollers(alloc: Global, headers: &[Header]) -> Result<Vec<Poller>, NoMemory>
    ensures { IfOk result (λ pollers. pollers.items ≡ map new_poller headers.now) }
{
    let mut pollers = Vec::new(alloc);
    for header in headers {
        pollers.push(Poller::new(*header))?;
    }
    Ok(pollers)
}

// Opens the poller, which has this header, where it is that of a child of a closed tablet.
fn open_one(poller: &mut Poller, header: &Header, parent: &Poller)
    requires header { header.now ≡ poller.old.header }
    requires closed { is_closed parent.now ≡ true }
    ensures { Opens parent.now poller.old poller.new }
{
    if let Some(above) = header.parent {
        if above == parent.id() {
            poller.open(parent);
        }
    }
}

/// Opens the pollers of the children of a closed tablet. The headers are those of the pollers.
pub(crate) fn open_children(pollers: &mut [Poller], headers: &[Header], parent: &Poller)
    requires headers { headers.now ≡ headers_of_pollers pollers.old }
    requires closed { is_closed parent.now ≡ true }
    ensures { AllZip (Opens parent.now) pollers.old pollers.new }
{
    for i in 0..pollers.len() {
        let poller = &mut pollers[i];
        open_one(poller, &headers[i], parent);
    }
}
