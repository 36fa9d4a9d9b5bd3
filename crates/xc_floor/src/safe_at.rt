// The safe time of logs at places, without memory.
ghost use Rattle.std.specs.Prelude.{◌≡◌, ◌<◌, ◌≤◌, [], true, false, length, map, slice_index_or};
ghost use Rattle.xc_record.specs.Accepted.{root_start};
ghost use Rattle.xc_record.specs.SafeTime.{IsPlaces, safe_time};
ghost use Rattle.xc_record.specs.Valid.{is_valid, headers_of};
ghost use Rattle.xc_model.specs.Floors.{counts, least_kept};
ghost use Rattle.xc_floor.specs.Orders.{order_of, begins, order_from, floors_of};

use xc_base::MOST_TABLETS;
use xc_order::{Order, walk_records};
use xc_record::{Header, Logs, Tablet};

// Where the tablet with this parent begins, if the parent's split is among what was applied.
fn begins(orders: &[Order], parent: Option<u32>) -> Option<Order>
    ensures { result ≡ begins orders.now parent }
{
    match parent {
        None => Some(Order::root()),
        Some(parent) => match orders.get(parent as usize) {
            Some(order) => {
                if order.has_split() {
                    Some(Order::child(order))
                } else {
                    None
                }
            }
            None => None,
        },
    }
}

// How far the tablet has come at its place.
fn order_from(orders: &[Order], tablet: &Tablet, place: u64) -> Order
    ensures { result ≡ order_from orders.now tablet.now place }
{
    let records = tablet.records.as_slice();
    let place = (place as usize).min(records.len());
    match begins(orders, tablet.header.parent) {
        Some(start) => walk_records(start, &records[..place]).order,
        None => Order::root(),
    }
}

// Whether the tablet is closed.
fn is_closed(orders: &[Order], id: u32) -> bool
    ensures { result ≡ slice_index_or (map (λ o. o.split) orders.now) id false }
{
    match orders.get(id as usize) {
        Some(order) => order.has_split(),
        None => false,
    }
}

// The tablet's last safe value.
fn safe_at(orders: &[Order], id: u32) -> u64
    ensures { result ≡ slice_index_or (map (λ o. o.floor) orders.now) id 0 }
{
    match orders.get(id as usize) {
        Some(order) => order.floor(),
        None => 0,
    }
}

// Whether the tablet of this header counts.
fn counts(orders: &[Order], header: &Header) -> bool
    ensures { result ≡ counts (floors_of [] orders.now) header.now }
{
    !is_closed(orders, header.id)
        && match header.parent {
            None => true,
            Some(parent) => is_closed(orders, parent),
        }
}

// The least value over the tablets that count.
fn least_over(tablets: &[Tablet], orders: &[Order]) -> u64
    ensures { result ≡ least_kept (floors_of (headers_of tablets.now) orders.now) }
{
    let mut least: u64 = 1 << 62;
    for tablet in tablets {
        if counts(orders, &tablet.header) {
            least = least.min(safe_at(orders, tablet.header.id));
        }
    }
    least
}

/// The safe time of the logs at these places: the least last safe value over the tablets that are not closed there. The
/// logs are valid and the places legal: one for each tablet, at most its accepted count, and 0 for the children of a
/// tablet that is not closed. It goes through the records up to the places, and takes no memory.
pub fn safe_of(logs: &Logs, places: &[u64]) -> u64
    requires valid { is_valid logs.now ≡ true }
    requires places { IsPlaces logs.now places.now }
    ensures { result ≡ safe_time logs.now places.now }
{
    let tablets = logs.tablets.as_slice();
    let mut orders = [Order::root(); MOST_TABLETS];
    for (i, tablet) in tablets.iter().enumerate() {
        orders[i] = order_from(&orders, tablet, places[i]);
    }
    least_over(tablets, &orders[..tablets.len()])
}
