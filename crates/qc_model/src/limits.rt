//! The limits of every instance.

ghost use Rattle.std.specs.Prelude.{◌≡◌};
ghost use Rattle.qc_model.specs.Numbers.{most_apart, most_bays, most_orders, most_cranes, most_distance, most_end, most_gap, most_gap_by_places, most_hatches, most_place, most_ready, most_start, most_tasks, most_travel, most_travel_by_places, most_work};

use qc_num::Tick;

/// The most tasks.
pub const MOST_TASKS: u16 = 240;

/// The most cranes.
pub const MOST_CRANES: u16 = 8;

/// The most crane bays of a ship whose hatches stand one bay apart, and so the most hatches.
pub const MOST_HATCHES: u16 = 60;

/// The greatest place of a ship whose places are given in decimetres.
pub const MOST_PLACE: u16 = 6_000;

/// The most ticks of travel per bay.
pub const MOST_TRAVEL: Tick = 10_000;

/// The most ticks of travel per decimetre.
pub const MOST_TRAVEL_BY_PLACES: Tick = 100;

/// How many bays neighbouring cranes are apart at most.
pub const MOST_GAP: u16 = 21;

/// How many decimetres neighbouring cranes are apart at most.
pub const MOST_GAP_BY_PLACES: u16 = 2_000;

/// The last tick at which a crane may become ready, and until which a task may be held back.
pub const MOST_READY: Tick = 1_000_000;

/// The most ticks of all tasks together.
pub const MOST_WORK: Tick = 502_400_000;

/// The most pairs of tasks that may not run at the same time.
pub const MOST_APART: usize = 1_600;

/// The most pairs of tasks that may get an order.
pub const MOST_ORDERS: u32 = 28_680;

/// The last tick at which a task may start in a schedule that is judged: twelve digits.
pub const MOST_START: Tick = 999_999_999_999;

/// The last tick at which a task ends in a schedule that is judged.
pub const MOST_END: Tick = MOST_START + MOST_WORK;

/// The most bays between two places of which the ticks are asked for, gaps included.
pub const MOST_BAYS: Tick = 60_000;

/// The most ticks by which cranes keep clear of each other, and of travel between two bays.
pub const MOST_DISTANCE: Tick = MOST_TRAVEL * MOST_BAYS;

/// The limits above are the numbers of the definitions. Nobody calls it; its proof fails where a
/// limit is another.
fn limits_are_the_definitions()
    ensures tasks { MOST_TASKS ≡ most_tasks }
    ensures cranes { MOST_CRANES ≡ most_cranes }
    ensures hatches { MOST_HATCHES ≡ most_hatches }
    ensures place { MOST_PLACE ≡ most_place }
    ensures travel { MOST_TRAVEL ≡ most_travel }
    ensures travel_by_places { MOST_TRAVEL_BY_PLACES ≡ most_travel_by_places }
    ensures gap { MOST_GAP ≡ most_gap }
    ensures gap_by_places { MOST_GAP_BY_PLACES ≡ most_gap_by_places }
    ensures ready { MOST_READY ≡ most_ready }
    ensures work { MOST_WORK ≡ most_work }
    ensures apart { MOST_APART ≡ most_apart }
    ensures orders { MOST_ORDERS ≡ most_orders }
    ensures start { MOST_START ≡ most_start }
    ensures end { MOST_END ≡ most_end }
    ensures bays { MOST_BAYS ≡ most_bays }
    ensures distance { MOST_DISTANCE ≡ most_distance }
{}
