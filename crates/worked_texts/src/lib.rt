//! Drawings and plants that the tests of several crates read.
#![tactic(auto)]

/// A motor's start and stop.
pub const START_STOP: &str = "\
|  START      STOP     RUN
+--| |----+---|/|------( )
|  RUN    |
+--| |----+
";

/// A contact that sees a rise.
pub const RISING_CONTACT: &str = "\
|  A    B     Y
+--| |--|P|---( )
";

/// A timer with operands on its pins.
pub const ON_DELAY: &str = "\
|             T1
|         +-------+
|  GO     |  TON  |   Y
+--| |----|IN    Q|---( )
| T#30ms--|PT   ET|--E
|         +-------+
";

/// A fast task that counts up to 3, and a slow one that watches it.
pub const PAIR: &str = "\
PROGRAM COUNT
VAR_INPUT UP : BOOL; END_VAR
VAR_OUTPUT N : INT; FULL : BOOL; END_VAR
VAR C1 : CTU; END_VAR
|            C1
|         +-------+
|  UP     |  CTU  |   FULL
+--| |----|CU    Q|---( )
|      3--|PV   CV|--N
|         +-------+
END_PROGRAM
PROGRAM WATCH
VAR_INPUT N : INT; FULL : BOOL; END_VAR
VAR_OUTPUT SEEN : INT; HIT : BOOL; END_VAR
VAR C2 : CTD; END_VAR
|            C2
|         +-------+
|         |  CTD  |
+---------|LD    Q|
|      N--|PV   CV|--SEEN
|         +-------+
|  FULL     HIT
+--| |------( )
END_PROGRAM
CONFIGURATION PAIR
  RESOURCE R1 ON NODE
    TASK FAST(INTERVAL := T#10ms, PRIORITY := 1);
    PROGRAM A WITH FAST : COUNT(UP := %IX0);
  END_RESOURCE
  RESOURCE R2 ON NODE
    TASK SLOW(INTERVAL := T#20ms, PRIORITY := 1);
    PROGRAM B WITH SLOW : WATCH(N := R1.A.N, FULL := R1.A.FULL);
  END_RESOURCE
END_CONFIGURATION
";

/// A task with a retained variable and one that isn't retained; its input sets both.
pub const HOLD: &str = "\
PROGRAM HOLD
VAR_INPUT GO : BOOL; END_VAR
VAR_OUTPUT Q, L : BOOL; END_VAR
VAR RETAIN M : BOOL; END_VAR
VAR K : BOOL; END_VAR
|  GO    M     K
+--| |---(S)---(S)
|  M     Q
+--| |---( )
|  K     L
+--| |---( )
END_PROGRAM
CONFIGURATION C
  RESOURCE R1 ON NODE
    TASK TICK(INTERVAL := T#10ms, PRIORITY := 0);
    PROGRAM H WITH TICK : HOLD(GO := %IX0);
  END_RESOURCE
END_CONFIGURATION
";

/// A task that takes its own output.
pub const LOOP: &str = "\
PROGRAM FLIP
VAR_INPUT P : BOOL; END_VAR
VAR_OUTPUT Q : BOOL; END_VAR
|  P     Q
+--|/|---( )
END_PROGRAM
CONFIGURATION LOOP
  RESOURCE R1 ON NODE
    TASK K(INTERVAL := T#10ms, PRIORITY := 0);
    PROGRAM F WITH K : FLIP(P := R1.F.Q);
  END_RESOURCE
END_CONFIGURATION
";
