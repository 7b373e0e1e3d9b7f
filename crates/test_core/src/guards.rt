// Events that are refused for want of some part of their guard, beside such as are not.

/// With two rings, events that name another. Grant, TakeTurn, Stop, and the slots of ring 0 for it lack nothing else;
/// the other rows lack more of their guard too.
pub(crate) const NO_RINGS: &str = "\
2 grant = refused
2 take-turn = refused
2 give-turn = refused
2 learn 50 : 1 2 = refused
2 learn unit 2 = refused
2 empty = refused
2 reduce = refused
2 open 50 = refused
2 read 20 = refused
2 share 20 = refused
2 drop 20 = refused
2 bury 20 = refused
2 put 20 for 0 class 0 place 0 = refused
2 get from 0 class 0 place 0 = refused
2 publish 2 as 1 = refused
2 see = refused
2 stop 1 = refused
0 grant = done
0 put 20 for 2 class 0 place 0 = refused
0 get from 2 class 0 place 0 = refused
0 put 20 for 1 class 0 place 0 = done
0 get from 1 class 0 place 0 = done
leaves
20 : clause 1, count 2
25 : clause 2, count 2, held 1 by 0
30 : clause 3, count 2, held 1 by 0
slot of 0 for 1 class 0 place 0 : 20
units seen 0 0 0 0
";

/// The turn and the grants.
pub(crate) const TURNS: &str = "\
0 give-turn = refused
0 take-turn = done
0 take-turn = refused
1 take-turn = refused
1 give-turn = refused
0 give-turn = done
1 take-turn = done
0 read 20 = refused
0 grant = done
0 grant = refused
0 read 20 = done
0 read 21 = refused
1 read 20 = refused
leaves
20 : clause 1, count 2, held 1 by 0
25 : clause 2, count 2, held 1 by 0
30 : clause 3, count 2, held 1 by 0
units seen 0 0 0 0
turn of 1
";

/// Clauses that a ring adds.
pub(crate) const CLAUSES: &str = "\
0 draw = done
1 draw = done
0 grant = done
0 learn 50 : 1 2 = refused # no turn
1 take-turn = done
0 learn 50 : 1 2 = refused # another's turn
1 learn 50 : 1 2 = refused # knows nothing
1 give-turn = done
0 take-turn = done
0 ruler 50 : 1 2 = refused
0 propagate 50 : 1 2 = refused
0 learn 50 : 2 = refused # one literal
0 learn 50 : 1 2 2 = refused # a repeat
0 learn 50 : 2 4 -4 = refused # opposites
0 learn 20 : 1 2 = refused # a cell
0 learn 0 : 1 2 = refused # no address
0 learn 50 : 1 3 = refused # does not follow
0 learn 50 : 4 2 -1 = refused # a start clause in it
0 derive 50 : 2 4 = refused # in no clause held
0 learn 50 : 2 1 = done
0 draw = done
0 learn 60 : 1 2 = refused # learned before
0 learn 60 : 1 2 4 = refused # what was learned in it
0 learn 50 : 2 4 = refused # a cell that is built
0 derive 60 : 1 2 = done
0 give-turn = done
1 grant = done
1 take-turn = done
1 learn 70 : 1 2 = done
leaves
20 : clause 1, count 2, held 1 by 0, held 1 by 1
25 : clause 2, count 2, held 1 by 0, held 1 by 1
30 : clause 3, count 2, held 1 by 0, held 1 by 1
50 : clause 4, count 0
60 : clause 5, count 0
70 : clause 6, count 0
line 2 1 0
line 1 2 0
line 1 2 0
units seen 0 0 0 0
turn of 1
drawn 3, ticket of 0
";

/// Units, over a formula that is unsatisfiable, and the end of the log.
pub(crate) const UNITS: &str = "\
0 draw = done
1 draw = done
0 take-turn = done
0 learn unit 1 = refused # knows nothing
0 grant = done
1 grant = done
0 ruler unit 1 = refused
0 derive unit 1 = refused
1 learn unit 1 = refused # another's turn
0 learn unit 3 = refused # does not follow
0 learn unit 1 by 1 2 = refused # the log has no hints
0 learn unit 1 = done
0 draw = done
0 learn unit 1 = refused # learned before
0 propagate unit 1 = done
0 publish 2 as 5 = refused # another unit
0 publish 1 as 4 = refused # no unit
0 publish 1 as 7 = refused # no clause
1 publish 1 as 5 = refused # another's turn
0 empty = refused # does not follow
0 stop 2 = refused # the log goes on
1 see = refused # nothing is listed
0 publish 1 as 6 = done
0 publish 1 as 5 = refused # listed before
0 see = refused # has seen what it listed
0 learn unit 2 = done # by the unit seen
0 give-turn = done
1 take-turn = done
1 publish 2 as 7 = refused # has not seen the first
1 see = done
1 see = refused
1 publish 2 as 7 = done
1 learn 50 : 5 6 = done
1 open 50 = done
1 drop 50 = done
0 empty = refused # another's turn
1 empty = done
1 empty = refused # the log is ended
1 draw = done
1 learn unit 7 = refused
1 learn 60 : 7 8 = refused
1 bury 50 = refused
1 stop 0 = refused # no kind
1 stop 6 = refused
1 stop 2 = done
0 stop 5 = done # the first stays
leaves
20 : clause 1, count 2, held 1 by 0, held 1 by 1
25 : clause 2, count 2, held 1 by 0, held 1 by 1
30 : clause 3, count 2, held 1 by 0, held 1 by 1
35 : clause 4, count 2, held 1 by 0, held 1 by 1
50 : clause 8, count 0, waits at 1
line 1 0
line 1 0
line 2 0
line 5 6 0
line 0
units 1 as 6, 2 as 7, seen 1 2 0 0
turn of 1
stop 2 by 1
drawn 4, ticket of 1
";

/// Cells, from their beginning to their deletion.
pub(crate) const CELLS: &str = "\
0 grant = done
1 grant = done
0 open 50 = refused # no cell
0 take-turn = done
0 draw = done
0 learn 50 : 1 2 = done
0 read 50 = refused # still built
0 share 50 = refused
0 drop 50 = refused
1 open 50 = refused # another builds it
0 open 50 = done
0 open 50 = refused # open
1 share 50 = refused # another holds it
1 drop 50 = refused
0 share 50 = done
0 drop 50 = done
0 bury 50 = refused # still held
0 drop 50 = done
0 drop 50 = refused # not held any more
0 read 50 = refused
0 give-turn = done
0 bury 50 = refused # no turn
1 take-turn = done
1 bury 50 = refused # waits at another
1 give-turn = done
0 take-turn = done
0 bury 50 = done
0 bury 50 = refused # gone
0 derive 50 : 1 2 = done # its address is free
0 drop 20 = done
0 bury 20 = refused # the other still holds it
1 drop 20 = done
0 bury 20 = refused # waits at the one that dropped it last
leaves
20 : clause 1, count 0, waits at 1
25 : clause 2, count 2, held 1 by 0, held 1 by 1
30 : clause 3, count 2, held 1 by 0, held 1 by 1
50 : clause 5, count 0
line 1 2 0
line d 1 2 0
line 1 2 0
units seen 0 0 0 0
turn of 0
drawn 1
";

/// Slots between three rings.
pub(crate) const EXCHANGE: &str = "\
0 put 20 for 1 class 3 place 0 = refused # not held
0 grant = done
1 grant = done
0 put 20 for 0 class 3 place 0 = refused # to itself
0 put 20 for 1 class 4 place 0 = refused # no class
0 put 20 for 1 class 3 place 2 = refused # no place
0 put 50 for 1 class 3 place 0 = refused # no cell
0 get from 0 class 3 place 0 = refused # from itself
0 get from 1 class 4 place 0 = refused # no class
0 get from 1 class 3 place 2 = refused # no place
0 put 20 for 1 class 3 place 0 = done
0 put 20 for 1 class 3 place 0 = refused # not held any more
0 put 25 for 2 class 3 place 1 = done
1 get from 0 class 2 place 0 = done # nothing there
1 get from 0 class 3 place 1 = done # nothing there
1 get from 2 class 3 place 0 = done
1 get from 0 class 3 place 0 = done
1 get from 0 class 3 place 0 = done # nothing any more
leaves
20 : clause 1, count 3, held 2 by 1
25 : clause 2, count 3, held 1 by 1
30 : clause 3, count 3, held 1 by 0, held 1 by 1
slot of 0 for 2 class 3 place 1 : 25
units seen 0 0 0 0
";

/// One ticket for two rings: only what is learned asks for it, and a ring that found none left draws no more.
pub(crate) const TICKETS: &str = "\
2 draw = refused # no ring
0 grant = done
1 grant = done
0 take-turn = done
0 learn 50 : 1 2 = refused # no ticket
0 learn unit 2 = refused # no ticket
0 derive 50 : 1 2 = done
0 draw = done # the ticket
0 draw = refused # it is still in hand
1 draw = done # none is left
1 draw = refused # found none left
0 derive 55 : 2 3 = done
0 propagate unit 2 = done
0 learn 60 : 1 3 = refused # does not follow, and leaves the ticket in hand
0 learn 60 : 2 -3 = done
0 learn 65 : 2 4 = refused # the ticket is used up
0 draw = done # none is left
0 draw = refused # found none left
0 give-turn = done
1 take-turn = done
1 learn 65 : 1 2 = refused # no ticket
leaves
20 : clause 1, count 2, held 1 by 0, held 1 by 1
25 : clause 2, count 2, held 1 by 0, held 1 by 1
30 : clause 3, count 2, held 1 by 0, held 1 by 1
50 : clause 4, count 0
55 : clause 5, count 0
60 : clause 7, count 0
line 1 2 0
line 2 3 0
line 2 0
line 2 -3 0
units seen 0 0 0 0
turn of 1
drawn 3
";

/// Two tickets and two rings: each ring has one in hand.
pub(crate) const IN_HAND: &str = "\
1 draw = done
0 draw = done
1 draw = refused
leaves
20 : clause 1, count 2
25 : clause 2, count 2
30 : clause 3, count 2
units seen 0 0 0 0
drawn 2, ticket of 0, ticket of 1
";

/// No ticket at all: a ring learns nothing, and derives all the same.
pub(crate) const NO_TICKETS: &str = "\
0 grant = done
0 take-turn = done
0 draw = done # there is none
0 draw = refused
0 learn 50 : 1 2 = refused
0 learn unit 2 = refused
0 derive 50 : 1 2 = done
leaves
20 : clause 1, count 2, held 1 by 0
25 : clause 2, count 2, held 1 by 0
30 : clause 3, count 2, held 1 by 0
50 : clause 4, count 0
line 1 2 0
units seen 0 0 0 0
turn of 0
drawn 1
";
