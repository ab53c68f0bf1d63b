//! The scripts as traces.

/// One node elects itself.
pub const ALONE: &str = "\
bully,1,1,2\nrecover,1\nmove,1\nmove,1\nmove,1\nplan,1,1 1\nmove,1\n";

/// The same in version 2.
pub const ALONE_UPGRADED: &str = "\
bully,2,1,2,1,clear\nrecover,1\nmove,1\nmove,1\nmove,1\nplan,1,1 1\nmove,1\n";

/// The same in version 3, with everything said.
pub const ALONE_ANNOTATED: &str = "\
bully,3,1,2,1,clear\nrecover,1\nsaw,1,election,-,-,-,-\nmove,1\nsaw,1,election,-,1,-,-\nmove,1\n\
saw,1,reorganization,1,1,-,-\nmove,1\nplan,1,1 1\nsaw,1,reorganization,1,1,-,1 1\nmove,1\n\
saw,1,normal,1,1,-,1 1\n";

/// The same in a group that keeps tasks, and then the node crashes.
pub const KEPT: &str = "\
bully,2,1,2,1,keep\nrecover,1\nmove,1\nmove,1\nmove,1\nplan,1,1 1\nmove,1\ncrash,1\n";

/// Node 2 leads itself alone, in a group that keeps tasks, and then it crashes. The rows say more, and claims tell all
/// of a vector.
pub const TOLD: &str = "\
bully,3,2,3,2 1,keep\nrecover,2\nsaw,2,election,-,-,-,-\nmove,2\nstart,2,halt,1\nlose,2,halt,1\n\
return,2,halt,1,failed\nmove,2\nmove,2\nplan,2,2 2 2\nsaw,2,reorganization,2,2,-,2 2 2\nmove,2\n\
crash,2\nsaw,2,down,-,-,-,2 2 2\n";

/// Node 3 elects itself while 1 and 2 are down.
pub const OTHERS_DOWN: &str = "\
bully,1,3,3\nrecover,3\nmove,3\nstart,3\nlose,3\nreturn,3\nstart,3\nlose,3\nreturn,3\n\
move,3\nmove,3\nplan,3,3 3 3\nmove,3\n";

/// Node 3 halts the others, announces itself and readies them.
pub const ALL_UP: &str = "\
bully,1,3,3\nrecover,1\nrecover,2\nrecover,3\nmove,3\nstart,3\nrun,3\nreturn,3\nstart,3\n\
run,3\nreturn,3\nmove,3\nstart,3\nrun,3\nreturn,3\nstart,3\nrun,3\nreturn,3\nmove,3\n\
plan,3,1 2 3\nstart,3\nrun,3\nreturn,3\nstart,3\nrun,3\nreturn,3\nmove,3\n";

/// The same, in a group whose node 2 weighs twice as much as the others.
pub const WEIGHTED: &str = "\
bully,2,3,7,1 2 1,clear\nrecover,1\nrecover,2\nrecover,3\nmove,3\nstart,3\nrun,3\nreturn,3\nstart,3\n\
run,3\nreturn,3\nmove,3\nstart,3\nrun,3\nreturn,3\nstart,3\nrun,3\nreturn,3\nmove,3\n\
plan,3,1 1 2 2 2 2 3\nstart,3\nrun,3\nreturn,3\nstart,3\nrun,3\nreturn,3\nmove,3\n";

/// A halted node's own Halt runs late.
pub const ORPHAN_HALT: &str = "\
bully,1,3,3\nrecover,1\nrecover,2\nstart,2\nlose,2\nreturn,2\nmove,2\nstart,2\nrecover,3\n\
move,3\nstart,3\nrun,3\nreturn,3\nstart,3\nrun,3\nreturn,3\nrun,2\nreturn,2\nmove,3\n\
start,3\nrun,3\nreturn,3\nstart,3\nrun,3\nreturn,3\nmove,3\nplan,3,1 2 3\nstart,3\nrun,3\n\
return,3\nstart,3\nrun,3\nreturn,3\nmove,3\nsaw,1,election,-\ncheck,3\nstart,3\nrun,3\n\
return,3\nmove,3\n";

/// A halted node's Ready is under way when it elects anew.
pub const ORPHAN_READY: &str = "\
bully,1,3,2\nrecover,1\nrecover,2\nstart,2\nlose,2\nreturn,2\nmove,2\nstart,2\nrun,2\n\
return,2\nmove,2\nstart,2\nrun,2\nreturn,2\nmove,2\nplan,2,1 2\nstart,2\nrecover,3\nmove,3\n\
start,3\nrun,3\ncrash,3\ntimeout,2\nstart,2\n";

/// A NewCoordinator runs after a newer Halt.
pub const ANNOUNCED_TOO_LATE: &str = "\
bully,1,3,2\nrecover,1\nrecover,2\nstart,2\nlose,2\nreturn,2\nmove,2\nstart,2\nrun,2\n\
return,2\nmove,2\nstart,2\nrecover,3\nmove,3\nstart,3\nrun,3\nreturn,3\nstart,3\nrun,3\n\
return,3\nrun,2\nsaw,1,election,-\nreturn,2\n";
