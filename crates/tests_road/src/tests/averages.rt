// The worked averages, with ample memory.
use road_time::Frac;
use std::alloc::Global;
use ways_expressway::worked::{speeds_move, two_minutes, two_vehicles};

/// Vehicles and not reports have means: two vehicles are there, and none five minutes later.
fn vehicles_have_means(alloc: Global) -> bool {
    let Ok((second, seventh)) = two_vehicles(alloc) else {
        return false;
    };
    let there = second.cars == 2 && second.lav == Some(Frac { num: 1260, den: 24 });
    there && seventh.cars == 0 && seventh.lav == None
}

/// Each minute with cars counts once, for five minutes.
fn minutes_count_once(alloc: Global) -> bool {
    let sixth = Some(Frac { num: 612, den: 24 });
    let seventh = Some(Frac { num: 372, den: 12 });
    two_minutes(alloc) == Ok((sixth, seventh))
}

#[test]
fn averages_of_a_few_notes(rt: HostRuntime) {
    let rows = [
        vehicles_have_means(rt.alloc()),
        minutes_count_once(rt.alloc()),
    ];
    assert_eq!(rt; rows, [true; 2]);
    speeds_move();
}
