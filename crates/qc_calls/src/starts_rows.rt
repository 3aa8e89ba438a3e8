//! Calls on the least starts of nodes and on the leaves that close them, and what they must answer. Tasks
//! and cranes are counted from 0.

use crate::files::{
    APART, AT_2_6_AND_14, AT_2_AND_6, AT_2_AND_14, CLOSE, DECK_AND_DECK_HOLD, DECK_HOLD,
    DECK_HOLD_AND_10, DECK_HOLD_AND_14, DECK_HOLD_AT_6, HOLD_TWICE_AT_6, LATE, ONE, ONE_A_BAY,
    QUICK_HOLD, TWO,
};
use crate::starts::Call::{
    Assign, Close, Complete, CraneOf, Ends, FreeBound, Leaving, Mark, Order, Retract, Ring,
    Settled, Spent, Start, Stuck, WhyPath, WorkBound,
};
use crate::starts::Row;
use qc_model::Turn;
use qc_num::Bound::{Least, Never};

// A name, the ship and the list, which way cranes go, and the calls, each with its answer.
macro_rules! row {
    ($name:literal: $ship:ident, $list:ident, $turn:ident; $($call:expr => $answer:literal,)*) => {
        Row {
            name: $name,
            ship: $ship,
            list: $list,
            turn: Turn::$turn,
            calls: &[$(($call, $answer)),*],
        }
    };
}

pub const STARTS: &[Row] = &[
    // Tasks of 20 ticks at bays 1 and 2. The first needs no way and either crane goes 1 bay to the
    // second, so the second ends at 21. With a crane each the first waits for 20 and 1 ticks after the
    // start of the second: from 1 + 21 to 42.
    row! { "raised-by-the-other-crane": TWO, AT_2_AND_6, OneWay;
        Start(0) => "0", Start(1) => "1", Ends => "21", WhyPath => "1", Complete => "no",
        Assign(0, 0) => "raised", Assign(1, 1) => "raised", Start(0) => "22", Start(1) => "1",
        Ends => "42", WhyPath => "1 0", Leaving(1) => "1-0:21", Leaving(0) => "none",
        Start(0) => "22", Complete => "yes", Mark => "2", Retract(0) => "0", Mark => "0",
        Leaving(1) => "none", Start(0) => "0", Start(0) => "0", Start(1) => "1", Ends => "21",
    },
    // One crane does the lower task first, goes 1 bay, and ends at 20 + 1 + 20.
    row! { "one-crane-for-both": TWO, AT_2_AND_6, OneWay;
        Assign(0, 0) => "raised", Settled(0, 1) => "no", Assign(1, 0) => "raised",
        Settled(0, 1) => "yes", Start(0) => "0", Start(1) => "21", Ends => "41", WhyPath => "0 1",
        Retract(1) => "1", CraneOf(0) => "0", CraneOf(1) => "none", Start(1) => "1",
    },
    // Work on deck comes first and takes 10 ticks, whoever does it.
    row! { "hold-waits-for-deck": ONE, DECK_HOLD, OneWay;
        Start(0) => "0", Start(1) => "10", Ends => "20", WhyPath => "0 1",
    },
    // The deck takes 10 ticks. With the deck on the higher crane, which comes 2 bays from its berth, the
    // hold waits for these and for the 2 bays that the margin asks for at one bay: from 2 + 12 on. That
    // arc stands before the older one of the pair, and goes with its decision.
    row! { "newest-arc-first": TWO, DECK_HOLD, OneWay;
        Leaving(0) => "0-1:10", Leaving(1) => "none", Assign(0, 1) => "raised",
        Leaving(0) => "0-1:10", Assign(1, 0) => "raised", Leaving(0) => "0-1:12 0-1:10",
        Leaving(1) => "none", Start(0) => "2", Start(1) => "14", Ends => "24", Retract(1) => "1",
        Leaving(0) => "0-1:10",
    },
    // Upward the higher crane is first at one bay, and it has the hold, which waits for the deck.
    row! { "ring-of-deck-and-hold": TWO, DECK_HOLD, OneWay;
        Assign(0, 0) => "raised", Stuck => "no", Assign(1, 1) => "cycle", Stuck => "yes",
        Ring => "2", Mark => "2", Complete => "yes", Retract(1) => "1", Stuck => "no", Mark => "1",
    },
    // The hold at bay 1 waits for the deck there, the task at bay 4 for the hold, since one crane does
    // both, and the deck for the task at bay 4, as decided.
    row! { "ring-of-three": APART, DECK_HOLD_AND_14, OneWay;
        Assign(1, 0) => "raised", Assign(2, 0) => "raised", Settled(0, 2) => "no",
        Order(2, 0) => "cycle", Stuck => "yes", Ring => "3", Retract(2) => "2", Stuck => "no",
        Start(0) => "0", Start(1) => "10", Start(2) => "23", Ends => "33", WhyPath => "0 1 2",
    },
    // The task of 30 ticks at bay 4 is first: the second crane goes 1 bay, and the other task of 20
    // ticks follows at 31.
    row! { "order-of-an-apart-pair": APART, AT_2_AND_14, OneWay;
        Start(0) => "0", Start(1) => "1", Order(1, 0) => "raised", Start(0) => "31",
        Start(1) => "1", Ends => "51", WhyPath => "1 0", Complete => "no",
    },
    // Both cranes come up to the second task alone, so all 40 ticks must fit between the bow and there: by
    // 20 the cranes have 20 and 19 left for them, by 21 they have 21 and 20. The starts end at 21. But both
    // tasks lie a bay apart, where the cranes come too near, so they can't run together. With a crane
    // each nothing is left to decide, and each crane stands still while the other works: 40 ticks, the first
    // from 0 on. The second goes 1 bay more between them.
    row! { "closed-by-its-end": TWO, AT_2_AND_6, OneWay;
        WorkBound => "21", Ends => "21", Spent => "clash 41", Close(Least(20)) => "chain",
        Close(Least(21)) => "chain", Close(Least(22)) => "clash 41", Close(Least(41)) => "clash 41",
        Close(Least(42)) => "open", Close(Never) => "open", Assign(0, 0) => "raised",
        WorkBound => "21", Close(Never) => "open", Assign(1, 1) => "raised", WorkBound => "40",
        Ends => "42", Close(Least(43)) => "chain", Close(Never) => "chain", Spent => "chain",
    },
    // One crane works 40 ticks and goes 1 bay, and the starts of tasks that no crane has end at 21. Both
    // tasks can't run together.
    row! { "closed-by-its-work": ONE, AT_2_AND_6, OneWay;
        Ends => "21", WorkBound => "41", Spent => "work 41", Close(Least(21)) => "chain",
        Close(Least(22)) => "clash 41", Close(Least(41)) => "clash 41", Close(Least(42)) => "open",
        Close(Never) => "open", Assign(0, 0) => "raised", WorkBound => "41", Spent => "work 41",
        Assign(1, 0) => "raised", Ends => "41", WorkBound => "41", Spent => "chain",
        Close(Never) => "chain",
    },
    // One crane works 50 ticks and goes 3 bays. The leaf shows the end that is asked for, and no later one.
    row! { "closed-at-an-end": ONE, AT_2_AND_14, OneWay;
        Ends => "33", WorkBound => "53", Close(Least(33)) => "chain", Close(Least(34)) => "work 34",
        Close(Least(53)) => "work 53", Close(Least(54)) => "open", Spent => "work 53",
    },
    // By 16 both cranes have 32 ticks for 30 of work, the bay that one goes up at the least, and the 2 bays
    // that they go down, since both must come to the first bay. With the task at the far bay the first crane
    // goes 3 bays and works 10: by 18 it can do 5 of the other 20 ticks. The second crane goes 2 bays down to
    // them, and 3 up from its berth to make way for the first: by 18 it can do 13 of them.
    row! { "work-shared-with-a-busy-crane": APART, DECK_HOLD_AND_14, OneWay;
        WorkBound => "17", Assign(2, 0) => "raised", WorkBound => "19", Retract(0) => "0",
        WorkBound => "17",
    },
    // The first crane works 20 ticks at bay 1, and can't come to the last bay while the second works 10 at
    // bay 2: by 32 it has no tick left for the last bay's 20, and the second crane, which goes a bay down and
    // 2 up, has 19.
    row! { "waits-for-its-neighbour": TWO, AT_2_6_AND_14, OneWay;
        Assign(0, 0) => "raised", Assign(1, 1) => "raised", WorkBound => "33",
    },
    // The second crane comes a bay down, works 10 ticks and goes 2 bays up, out of the way of the first.
    row! { "makes-way-upward": QUICK_HOLD, DECK_HOLD_AT_6, OneWay;
        Assign(0, 1) => "raised", Assign(1, 0) => "raised", WorkBound => "13", FreeBound => "13",
    },
    // It comes a bay down and works 10 ticks, goes 2 bays up, and comes 2 bays down again to work a tick: no
    // crane that goes one way can.
    row! { "makes-way-and-comes-back": QUICK_HOLD, HOLD_TWICE_AT_6, OneWay;
        Assign(0, 1) => "raised", Assign(1, 0) => "raised", Assign(2, 1) => "cycle",
        FreeBound => "16",
    },
    // With the first task on the first crane the count lets 15 pass. But if no task had a crane both would have
    // to come to the first bay for its 20 ticks: the second goes 2 bays down, and by 15 they have 30 ticks
    // together for 30 of work and this way.
    row! { "closed-whichever-cranes-tasks-have": TWO, DECK_HOLD_AND_10, OneWay;
        WorkBound => "16", Assign(0, 0) => "raised", WorkBound => "16",
    },
    // Each crane waits while the other works beside it: 10 ticks of its own, 10 of the other's, and one of
    // travel. By 26 the first has 5 left for the third task, and the second, which goes a bay up to it, 4. Where
    // each goes its longest way it comes past that bay, so the ways alone say less.
    row! { "a-wait-says-more-than-a-way": TWO, DECK_AND_DECK_HOLD, OneWay;
        Assign(0, 1) => "raised", Assign(2, 0) => "raised", WorkBound => "27",
    },
    // The first crane is ready at 100. Without a task it isn't waited for: the second goes 3 bays and works
    // 40 ticks. With the first task it goes 1 bay and works 20.
    row! { "late-crane-without-a-task": LATE, AT_2_AND_6, OneWay;
        WorkBound => "43", Assign(0, 0) => "raised", WorkBound => "121",
    },
    // The second crane goes 2 bays to the hold, which it does after the deck and before it. At one bay the
    // cranes work one after the other, 20 ticks.
    row! { "closed-by-a-ring": TWO, DECK_HOLD, OneWay;
        Assign(0, 0) => "raised", Assign(1, 1) => "cycle", Close(Least(1)) => "ring",
        Close(Never) => "ring", Spent => "ring", WorkBound => "20",
    },
    // Tasks of 20 ticks at bays 1 and 2, and two cranes between which a bay stays free. The second task
    // waits 1 tick for its crane, and starts at 1 where nothing is ordered; but then the cranes come too
    // near, and the order is open. They are a bay apart, 1 tick, so both need 41 ticks. The first task
    // first: 0, and 20 and 1 later; the other way 1, and 20 and 1 later.
    row! { "free-order-of-two-that-clash": TWO, AT_2_AND_6, Free;
        Assign(0, 0) => "raised", Assign(1, 1) => "raised", Settled(0, 1) => "no", Start(0) => "0",
        Start(1) => "1", Ends => "21", Complete => "no", Close(Least(21)) => "chain",
        Close(Least(22)) => "clash 41", Close(Least(41)) => "clash 41", Close(Least(42)) => "open",
        Close(Never) => "open", Order(0, 1) => "raised", Settled(0, 1) => "yes", Start(1) => "21",
        Ends => "41", Complete => "yes", Close(Never) => "chain", Spent => "chain",
        Retract(2) => "2", Order(1, 0) => "raised", Start(0) => "22", Start(1) => "1", Ends => "42",
        Complete => "yes",
    },
    // Tasks at bays 1 and 4 of which each crane has one: they are never too near.
    row! { "free-order-of-none": TWO, AT_2_AND_14, Free;
        Assign(0, 0) => "raised", Assign(1, 1) => "raised", Settled(0, 1) => "no", Start(0) => "0",
        Start(1) => "1", Ends => "31", Complete => "yes",
    },
    // One crane has all three tasks of 10 ticks. The hold comes after the deck, and the task 3 bays off
    // is put behind the hold: 20 and 3. So the deck and that task are clear of each other, and their order
    // stays open.
    row! { "free-pair-that-stays-open": ONE, DECK_HOLD_AND_14, Free;
        Assign(0, 0) => "raised", Assign(1, 0) => "raised", Assign(2, 0) => "raised",
        Start(0) => "0", Start(1) => "10", Start(2) => "3", Complete => "no",
        Order(1, 2) => "raised", Start(2) => "23", Ends => "33", Settled(0, 2) => "no",
        Complete => "yes",
    },
    // Four cranes, none between them, at bays 1 to 4; each has the task of 10 ticks at the bay of its
    // counterpart, so no two tasks can run together. Their places are 4, 2, 0 and -2: all four need 46
    // ticks. Cranes of the inner tasks are there at 1, those of the outer at 3. Lists of an inner task
    // and both outer ones need 36. Where an order is decided, the list of all four is tried too.
    row! { "free-list-of-all-cranes": CLOSE, ONE_A_BAY, Free;
        Assign(0, 3) => "raised", Assign(1, 2) => "raised", Assign(2, 1) => "raised",
        Assign(3, 0) => "raised", Start(0) => "3", Start(1) => "1", Start(2) => "1",
        Start(3) => "3", Ends => "13", Close(Least(37)) => "clash 37", Order(2, 3) => "raised",
        Start(3) => "13", Ends => "23", Close(Least(38)) => "clash 47",
        Close(Least(47)) => "clash 47",
    },
];
