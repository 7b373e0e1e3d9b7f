// Worked rows: events, what becomes of each, and what they leave.

/// Two rings learn the same clause, and one deletes its own: one copy is left, from which the other learns a unit. What
/// was deleted is not deleted again, with the turn or without.
pub(crate) const EQUAL_LEMMAS: &str = "\
0 grant = done
0 take-turn = done
0 draw = done
0 learn 50 : 1 2 = done
0 give-turn = done
0 open 50 = done
1 grant = done
1 take-turn = done
1 draw = done
1 learn 60 : 1 2 = done
1 give-turn = done
1 open 60 = done
0 drop 50 = done
0 take-turn = done
0 bury 50 = done
0 give-turn = done
1 take-turn = done
1 draw = done
1 learn unit 2 = done
1 give-turn = done
0 bury 50 = refused
0 take-turn = done
0 bury 50 = refused
0 give-turn = done
leaves
20 : clause 1, count 2, held 1 by 0, held 1 by 1
25 : clause 2, count 2, held 1 by 0, held 1 by 1
30 : clause 3, count 2, held 1 by 0, held 1 by 1
60 : clause 5, count 1, held 1 by 1
line 1 2 0
line 1 2 0
line d 1 2 0
line 2 0
units seen 0 0 0 0
drawn 3
";

/// A cell is put over another into the same slot. What came back out is deleted, and the other ring takes what is left
/// there.
pub(crate) const PUT_TWICE: &str = "\
0 grant = done
0 take-turn = done
0 draw = done
0 learn 50 : 1 2 = done
0 give-turn = done
0 open 50 = done
0 take-turn = done
0 draw = done
0 learn 60 : 2 3 = done
0 give-turn = done
0 open 60 = done
0 put 50 for 1 class 0 place 0 = done
0 put 60 for 1 class 0 place 0 = done
0 drop 50 = done
0 take-turn = done
0 bury 50 = done
0 give-turn = done
1 grant = done
1 get from 0 class 0 place 0 = done
1 get from 0 class 0 place 0 = done
0 read 60 = refused
1 read 60 = done
leaves
20 : clause 1, count 2, held 1 by 0, held 1 by 1
25 : clause 2, count 2, held 1 by 0, held 1 by 1
30 : clause 3, count 2, held 1 by 0, held 1 by 1
60 : clause 5, count 1, held 1 by 1
line 1 2 0
line 2 3 0
line d 1 2 0
units seen 0 0 0 0
drawn 2
";

/// Two cells are put into the two slots of a class. Nothing comes back out, and the other ring takes both.
pub(crate) const PUT_BESIDE: &str = "\
0 grant = done
1 grant = done
0 put 20 for 1 class 0 place 0 = done
0 put 25 for 1 class 0 place 1 = done
0 put 30 for 1 class 0 place 2 = refused # no place
1 get from 0 class 0 place 2 = refused # no place
1 get from 0 class 0 place 1 = done
1 get from 0 class 0 place 0 = done
1 get from 0 class 0 place 0 = done # nothing any more
0 put 30 for 1 class 0 place 1 = done
leaves
20 : clause 1, count 2, held 2 by 1
25 : clause 2, count 2, held 2 by 1
30 : clause 3, count 2, held 1 by 1
slot of 0 for 1 class 0 place 1 : 30
units seen 0 0 0 0
";

/// A unit of the formula is listed from the start. Rings see it before they know what follows from it, and it is not
/// listed again; the unit of another clause is listed as it stands in the formula.
pub(crate) const OPENING_UNITS: &str = "\
0 grant = done
0 take-turn = done
0 propagate unit 2 = refused # has not seen the first unit
0 publish 5 as 4 = refused
0 see = done
0 see = refused # has seen all
0 propagate unit 2 = done
0 publish 1 as 1 = refused # listed from the start
0 publish 2 as 6 = done
0 draw = done
0 learn 50 : 4 3 = done
0 propagate unit 5 = refused # in no clause that is held
0 publish 5 as 5 = done # a clause of the formula
0 propagate unit 5 = done
0 give-turn = done
1 see = done
leaves
20 : clause 2, count 2, held 1 by 0
25 : clause 3, count 2, held 1 by 0
50 : clause 7, count 0
line 2 0
line 4 3 0
line 5 0
units 1 as 1, 2 as 6, 5 as 5, seen 3 1 0 0
drawn 1
";

/// The empty clause is in the formula: nothing is written any more, and a refutation may be known at once.
pub(crate) const ENDED_BEFORE: &str = "\
1 stop 2 = done
0 grant = done
1 grant = done
0 take-turn = done
0 empty = refused
0 propagate unit 1 = refused
0 drop 20 = done
1 drop 20 = done
1 bury 20 = refused
0 publish 1 as 3 = done # a clause of the formula
0 stop 1 = done # the first stays
leaves
20 : clause 2, count 0, waits at 1
units 1 as 3, seen 1 0 0 0
turn of 0
stop 2 by 1
";
