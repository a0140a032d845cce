/// A worked row: the input, and the report that was computed by hand.
pub type Row = (&'static str, &'static str);

/// Workloads, each with what the program writes for it.
pub const ROWS: [Row; 20] = [
    // A workload without operations.
    (
        "far 1\nclients 1\nservers 1\nslots 1\nhot 0\n",
        "far 1 report\nsteps 0\nhistory 0\ncontrol 0\nmap 0\nend\n",
    ),
    // A put and a get.
    (
        "far 1\nclients 1\nservers 1\nslots 1\nhot 0\nput 0 a =x\nget 0 a\n",
        "far 1 report\nsteps 10\nhistory 2\n1 0 put a 1 =x server 1 5\n\
         2 0 get a 1 =x server 6 10\ncontrol 0\nmap 1\na 1 =x\nend\n",
    ),
    // A key that was never written.
    (
        "far 1\nclients 1\nservers 1\nslots 1\nhot 0\nget 0 a\n",
        "far 1 report\nsteps 5\nhistory 1\n1 0 get a 0 - server 1 5\ncontrol 0\nmap 0\nend\n",
    ),
    // The second put reaches the server first.
    (
        "far 1\nclients 2\nservers 1\nslots 1\nhot 0\nput 0 a =x\nput 1 a =y\n\
         picks 0 0 0 0 1 1 1\n",
        "far 1 report\nsteps 10\nhistory 2\n1 0 put a 1 =x server 1 10\n\
         2 1 put a 2 =y server 2 7\ncontrol 0\nmap 1\na 2 =y\nend\n",
    ),
    // A tagged read makes the slot latest with the old value; the reply of the put raises it.
    (
        "far 1\nclients 2\nservers 1\nslots 1\nhot 0\nput 0 a =x\nget 1 a\nget 0 a\nadmit 2 a\n\
         picks 0 1 2 2 0 2 2 2 0 2 2 0 2\n",
        "far 1 report\nsteps 17\nhistory 3\n2 1 get a 0 - server 6 16\n\
         1 0 put a 1 =x server 1 12\n3 0 get a 1 =x switch 13 17\ncontrol 1\nadmitted 15 0 a 1\n\
         map 1\na 1 =x\nend\n",
    ),
    // The reply of the put passes while the slot is outdated, and the older tagged reply does not make it latest.
    (
        "far 1\nclients 2\nservers 1\nslots 1\nhot 0\nput 0 a =x\nget 1 a\nget 0 a\nadmit 2 a\n\
         picks 0 1 2 2 0 2 2 0 2 2 2 0 2\n",
        "far 1 report\nsteps 19\nhistory 3\n2 1 get a 0 - server 6 16\n\
         1 0 put a 1 =x server 1 11\n3 0 get a 1 =x server 13 19\ncontrol 1\nadmitted 15 0 a 1\n\
         map 1\na 1 =x\nend\n",
    ),
    // A reply under tag 1 comes back after eviction and admission under tag 2.
    (
        "far 1\nclients 2\nservers 1\nslots 1\nhot 0\nget 1 a\nput 0 a =x\nget 0 a\nadmit 0 a\n\
         evict 7 a\nadmit 17 a\npicks 2 2 2 1 1 1 2 2 2 2 0 1 1 1 1 2 2 1 0\n",
        "far 1 report\nsteps 28\nhistory 3\n1 1 get a 0 - server 5 24\n\
         2 0 put a 1 =x server 13 17\n3 0 get a 1 =x server 22 28\ncontrol 3\nadmitted 4 0 a 1\n\
         evicted 12 0 a 1\nadmitted 23 0 a 2\nmap 1\na 1 =x\nend\n",
    ),
    // A write between the peek and the removal.
    (
        "far 1\nclients 1\nservers 1\nslots 1\nhot 0\nput 0 a =x\nput 0 a =y\nget 0 a\n\
         admit 0 a\nevict 7 a\npicks 1 1 1 0 0 0 1 0 1 0 0 1 1 1 1 1 1 1 1\n",
        "far 1 report\nsteps 26\nhistory 3\n1 0 put a 1 =x switch 5 7\n\
         2 0 put a 2 =y switch 10 13\n3 0 get a 2 =y server 22 26\ncontrol 2\nadmitted 4 0 a 1\n\
         evicted 21 0 a 2\nmap 1\na 2 =y\nend\n",
    ),
    // One write before each of three removals.
    (
        "far 1\nclients 1\nservers 1\nslots 1\nhot 0\nput 0 a =p\nput 0 a =q\nput 0 a =r\n\
         put 0 a =s\nget 0 a\nadmit 0 a\nevict 7 a\n\
         picks 1 1 1 0 0 0 1 1 1 1 0 1 1 1 1 1 1 0 1 1 1 1 1 1 0 1 1 1 1\n",
        "far 1 report\nsteps 34\nhistory 5\n1 0 put a 1 =p switch 5 7\n\
         2 0 put a 2 =q switch 13 15\n3 0 put a 3 =r switch 20 22\n4 0 put a 4 =s switch 27 29\n\
         5 0 get a 4 =s switch 32 34\ncontrol 2\nadmitted 4 0 a 1\nkept 31 0 a 4\nmap 1\na 4 =s\n\
         end\n",
    ),
    // A delete is absorbed, evicted and read.
    (
        "far 1\nclients 1\nservers 1\nslots 1\nhot 0\ndel 0 a\nget 0 a\nadmit 0 a\nevict 7 a\n\
         picks 1 1 1 0 0 0 1 1 1 1 1 1\n",
        "far 1 report\nsteps 19\nhistory 2\n1 0 del a 1 - switch 5 7\n\
         2 0 get a 1 - server 15 19\ncontrol 2\nadmitted 4 0 a 1\nevicted 14 0 a 1\nmap 1\n\
         a 1 -\nend\n",
    ),
    // The slot is overwritten twice before the snapshot reads it.
    (
        "far 1\nclients 1\nservers 1\nslots 1\nhot 0\nput 0 a =p\nput 0 a =q\nput 0 a =r\n\
         admit 0 a\nsnap 7\npicks 1 1 1 0 0 0 1 1 0 1 1 0 2 2\n",
        "far 1 report\nsteps 19\nhistory 3\n1 0 put a 1 =p switch 5 7\n\
         2 0 put a 2 =q switch 11 13\n3 0 put a 3 =r switch 14 16\ncontrol 2\nadmitted 4 0 a 1\n\
         snapshot 18 1 1 1\n0 a 1 =p\nmap 1\na 3 =r\nend\n",
    ),
    // The slot goes to another key before the snapshot reads it.
    (
        "far 1\nclients 1\nservers 1\nslots 1\nhot 0\nput 0 a =p\nput 0 b =q\nadmit 0 a\nsnap 7\n\
         evict 10 a\nadmit 17 b\npicks 1 1 1 0 0 0 1 1 2 2 2 2 2 2 3 3 3 0 2 2\n",
        "far 1 report\nsteps 27\nhistory 2\n1 0 put a 1 =p switch 5 7\n\
         2 0 put b 2 =q switch 22 24\ncontrol 4\nadmitted 4 0 a 1\nevicted 17 0 a 1\n\
         admitted 21 0 b 2\nsnapshot 26 1 1 1\n0 a 1 =p\nmap 2\na 1 =p\nb 2 =q\nend\n",
    ),
    // A release overtakes the answer of a write up to its point.
    (
        "far 1\nclients 1\nservers 1\nslots 1\nhot 0\nput 0 a =p\nget 0 a\nadmit 0 a\nsnap 6\n\
         stop 12\npicks 1 1 1 0 0 1 1 1 1 1 0 1 1 1 1 1 1 1 1\n",
        "far 1 report\nsteps 27\nhistory 2\n1 0 put a 1 =p switch 5 14\n\
         2 0 get a 1 =p server 23 27\ncontrol 4\nadmitted 4 0 a 1\nsnapshot 11 1 1 1\n0 a 1 =p\n\
         stopped 13\nrecovered 22 1 1\na 1 =p\nmap 1\na 1 =p\nend\n",
    ),
    // A stop while the answer of a write that another client has read is in flight.
    (
        "far 1\nclients 2\nservers 1\nslots 1\nhot 0\nput 0 a =p\nget 1 a\nget 1 a\nadmit 0 a\n\
         stop 9\npicks 2 2 2 0 1 0 1 1 1 1 1 1 1 1 1 1 1 1 1\n",
        "far 1 report\nsteps 26\nhistory 3\n1 0 put a 1 =p switch 5 11\n\
         2 1 get a 1 =p switch 7 9\n3 1 get a 1 =p server 22 26\ncontrol 3\nadmitted 4 0 a 1\n\
         stopped 10\nrecovered 21 1 1\na 1 =p\nmap 1\na 1 =p\nend\n",
    ),
    // A stop in the middle of the second snapshot.
    (
        "far 1\nclients 1\nservers 1\nslots 1\nhot 0\nput 0 a =p\nput 0 a =q\nget 0 a\n\
         admit 0 a\nsnap 7\nsnap 16\nstop 18\n\
         picks 1 1 1 0 0 0 1 1 1 1 1 0 0 0 1 1 1 1 1 1 1 1 1 1 1 1\n",
        "far 1 report\nsteps 36\nhistory 3\n1 0 put a 1 =p switch 5 7\n\
         2 0 put a 2 =q switch 14 16\n3 0 get a 2 =q server 31 36\ncontrol 4\nadmitted 4 0 a 1\n\
         snapshot 12 1 1 1\n0 a 1 =p\nstopped 19\nrecovered 30 2 1\na 2 =q\nmap 1\na 2 =q\nend\n",
    ),
    // Two stops; an `Admit` of the first epoch arrives after the first restart and is dropped.
    (
        "far 1\nclients 1\nservers 1\nslots 1\nhot 0\nput 0 a =p\nadmit 0 a\nstop 2\nstop 10\n\
         picks 1 1 1 1 1 1 1 1 1 1 1 1 1 1\n",
        "far 1 report\nsteps 22\nhistory 1\n1 0 put a 1 =p server 18 22\ncontrol 4\nstopped 3\n\
         recovered 9 0 0\nstopped 11\nrecovered 17 0 0\nmap 1\na 1 =p\nend\n",
    ),
    // A key grows hot; its absence is cached.
    (
        "far 1\nclients 1\nservers 1\nslots 1\nhot 2\nget 0 a\nget 0 a\nget 0 a\nget 0 a\n\
         picks 0 0 0 0 0 0 0 0 0 0 0 1 1 1\n",
        "far 1 report\nsteps 22\nhistory 4\n1 0 get a 0 - server 1 5\n2 0 get a 0 - server 6 11\n\
         3 0 get a 0 - server 15 19\n4 0 get a 0 - switch 20 22\ncontrol 1\nadmitted 14 0 a 1\n\
         map 0\nend\n",
    ),
    // The switch stops at a write, which is lost with it and sent again.
    (
        "far 1\nclients 1\nservers 1\nslots 1\nhot 0\nput 0 a =x\nstop writereq 1\n",
        "far 1 report\nsteps 12\nhistory 1\n1 0 put a 1 =x server 1 12\ncontrol 2\nstopped 3\n\
         recovered 10 1 1\na 1 =x\nmap 1\na 1 =x\nend\n",
    ),
    // The second snapshot finds nothing that has changed.
    (
        "far 1\nclients 1\nservers 1\nslots 1\nhot 0\nsnap 0\nsnap 0\n",
        "far 1 report\nsteps 12\nhistory 0\ncontrol 2\nsnapshot 5 1 0 0\nsnapshot 11 2 0 0\n\
         map 0\nend\n",
    ),
    // A snapshot after a restart.
    (
        "far 1\nclients 1\nservers 1\nslots 1\nhot 0\nsnap 0\nstop 6\nsnap 7\n",
        "far 1 report\nsteps 19\nhistory 0\ncontrol 4\nsnapshot 5 1 0 0\nstopped 7\n\
         recovered 13 0 0\nsnapshot 18 2 0 0\nmap 0\nend\n",
    ),
];
