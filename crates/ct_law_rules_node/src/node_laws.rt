//! What follows for the rules of every node.
ghost use Rattle.ct_law_rules_node.specs.NodeLaws.{ChangesEach, KeepsOne, InstallsEach, TellsEach, MovesOne, BlankIsNothing, FormedIsKept, GrowsAlone, KeepsOrder, StartsInOrder, RestartsInOrder, QuietUnlessPresent, InstallsFrozenAlone, FreezesEach, RestartsEach, InstallsDbs, InstallsFrozen, TestsLocks, CallsEach};

/// A change of all states is seen at each key, and a state that is put at a key is seen there alone; both keep the order.
pub fn changes_are_seen()
    ensures each { ChangesEach }
    ensures one { KeepsOne }
{}

/// An installation is seen at each key as the row of the table there, over what the round left of the key.
pub fn installs_each()
    ensures { InstallsEach }
{}

/// The table that a node tells has at each database and key the row of its copy there, and its rows are in order.
pub fn tells_each()
    ensures { TellsEach }
{}

/// A step at one record leaves there what the rule of the record says, unless that is blank, and leaves all others alone. A
/// blank state in form, with tracking at the holder alone, is the one in which nothing is kept.
pub fn moves_one()
    ensures one { MovesOne }
    ensures blank { BlankIsNothing }
    ensures formed { FormedIsKept }
{}

/// Whatever comes, the promise and the next request number do not fall, what is spent stays spent, and what the node did
/// before stays before what it does now.
pub fn grows_alone()
    ensures { GrowsAlone }
{}

/// A node has a database for each of the configuration, with its records in order: so at the opening, after a stop, and
/// whatever comes.
pub fn keeps_order()
    ensures opening { StartsInOrder }
    ensures stop { RestartsInOrder }
    ensures kept { KeepsOrder }
{}

/// Whatever comes to a node that is not present, no message of a record is sent, where each locked record is held.
pub fn quiet_unless_present()
    ensures { QuietUnlessPresent }
{}

/// A Push changes no node but one that is frozen for its generation.
pub fn installs_frozen_alone()
    ensures { InstallsFrozenAlone }
{}

/// A Freeze, a stop and an installation change every database by itself, and a sound Push makes of a node that is frozen
/// for its generation the one that has it installed.
pub fn rounds_change_nodes()
    ensures freezes { FreezesEach }
    ensures restarts { RestartsEach }
    ensures installs { InstallsDbs }
    ensures pushed { InstallsFrozen }
{}

/// A node that finds no lock has none, and one that finds a lock has one.
pub fn tests_locks()
    ensures { TestsLocks }
{}

/// The calls that wait at a node, by number, have for each record the call of its wish, and no other.
pub fn calls_each()
    ensures { CallsEach }
{}
