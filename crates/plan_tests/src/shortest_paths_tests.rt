//! Distances, next hops and routes of a small network that was worked by hand.

use base::{NoMemory, Seq};
use shortest_paths::{Link, distances, is_network, next_hops, plan_routes};
use std::alloc::Global;

/// A square of two equal ways from node 0 to node 3, a dearer link between them, a node 4 that
/// nothing leads from, and a link out of the network; each by from, to and metric
const SQUARE: &[(u32, Option<u32>, u32)] = &[
    (0, Some(1), 10),
    (0, Some(2), 20),
    (0, None, 1),
    (1, Some(3), 20),
    (2, Some(3), 10),
    (0, Some(3), 31),
    (3, Some(4), u32::MAX),
];

fn square(alloc: Global) -> Result<Vec<Link>, NoMemory> {
    let mut links = Vec::new(alloc);
    for (from, to, metric) in SQUARE {
        links.push(Link {
            from: *from,
            to: *to,
            metric: *metric,
        })?;
    }
    Ok(links)
}

#[test]
fn equal_ways_are_both_next_hops(rt: HostRuntime) -> Result<(), NoMemory> {
    let links = square(rt.alloc())?;
    assert!(rt; is_network(5, links.as_slice()));
    let to = distances(rt.alloc(), 5, links.as_slice(), &[3])?;
    let want = [Some(30), Some(20), Some(10), Some(0), None];
    assert_eq!(rt; to.as_slice(), want.as_slice());
    let hops = next_hops(rt.alloc(), links.as_slice(), to.as_slice(), 0)?;
    assert_eq!(rt; hops.as_slice(), [0, 1].as_slice());
    Ok(())
}

#[test]
fn the_nearest_of_several_targets_counts(rt: HostRuntime) -> Result<(), NoMemory> {
    let links = square(rt.alloc())?;
    assert!(rt; is_network(5, links.as_slice()));
    let to = distances(rt.alloc(), 5, links.as_slice(), &[4, 1, 1])?;
    let far = u64::from(u32::MAX);
    let want = [Some(10), Some(0), Some(far + 10), Some(far), Some(0)];
    assert_eq!(rt; to.as_slice(), want.as_slice());
    Ok(())
}

#[test]
fn routes_come_by_destinations_and_nodes(rt: HostRuntime) -> Result<(), NoMemory> {
    let links = square(rt.alloc())?;
    assert!(rt; is_network(5, links.as_slice()));
    let mut destinations = Vec::new(rt.alloc());
    destinations.push(Seq::new(Vec::from_array(rt.alloc(), [3])?))?;
    destinations.push(Seq::new(Vec::new(rt.alloc())))?;
    destinations.push(Seq::new(Vec::from_array(rt.alloc(), [1, 2])?))?;
    let routes = plan_routes(rt.alloc(), 5, links.as_slice(), destinations.as_slice())?;
    let text = format!(in rt.alloc(); "{routes:?}")?;
    let want = "[Route { node: 0, destination: 0, via: Seq { items: [0, 1] } }, \
        Route { node: 1, destination: 0, via: Seq { items: [3] } }, \
        Route { node: 2, destination: 0, via: Seq { items: [4] } }, \
        Route { node: 0, destination: 2, via: Seq { items: [0] } }]";
    assert_eq!(rt; text.as_str(), want);
    Ok(())
}
