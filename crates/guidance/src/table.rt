//! What is told of each kind of fault: what is wrong and how it is mended, a text with this fault, and the text mended; and
//! the same of each kind of warning, but for what its crate says of it.
//! What is no text stands in parentheses. The guides in docs/ say the same.

pub const NOT_ASCII: &str =
    "A character here is no printable ASCII character (a tab is none either); write blanks, and the letters and signs of ASCII.";

pub const NOT_ASCII_REFUSED: &str = "\
|  MÜHLE
+--( )";

pub const NOT_ASCII_MENDED: &str = "\
|  MILL
+--( )";

pub const TOO_LARGE: &str =
    "A drawing has at most 2,000 lines of 240 columns, blanks at the end of a line aside; draw it in fewer, or part it.";

pub const TOO_LARGE_REFUSED: &str = "(a line of 241 signs, or 2,001 lines)";

pub const TOO_LARGE_MENDED: &str = "(two drawings, or a longer line carried on in the rows below)";

pub const NO_LEFT_RAIL: &str =
    "The leftmost column is the left rail and has no other signs than | and +; draw the rail, and begin everything else on its right. A comment is a row of its own: (* .. *).";

pub const NO_LEFT_RAIL_REFUSED: &str = "\
LAMP
|  A    Y
+--| |--( )";

pub const NO_LEFT_RAIL_MENDED: &str = "\
|  A    Y
+--| |--( )";

pub const BAD_BOX: &str =
    "The box that begins here isn't whole: draw + at its four corners, - above and below and | at both sides, its type alone in the first row, at most a left and a right pin in each row below, and no other box in its place.";

pub const BAD_BOX_REFUSED: &str = "\
|     T1
|  +-----+
+--| TON |
|  |IN  Q|
|  +-- --+";

pub const BAD_BOX_MENDED: &str = "\
|     T1
|  +-----+
|  | TON |
+--|IN  Q|
|  +-----+";

pub const BAD_MARK: &str =
    "This sign means nothing here: a contact is | |, |/|, |P| or |N| right behind a - or +, a coil is ( ), (/), (S), (R), (P) or (N), and a line at the side of a box stands in the row of a pin. A comment is a row of its own: (* .. *).";

pub const BAD_MARK_REFUSED: &str = "\
|  A    Y
+--| |--(X)";

pub const BAD_MARK_MENDED: &str = "\
|  A    Y
+--| |--(S)";

pub const CROSSING: &str =
    "A | of an upright has a line, symbol or box beside it, or ends the upright; write + where an upright meets a line, and + at both of its ends (lines can't cross unjoined).";

pub const CROSSING_REFUSED: &str = "\
|  A    Y
+--| |--( )
|  B  |
+--| |+";

pub const CROSSING_MENDED: &str = "\
|  A     Y
+--| |+--( )
|  B  |
+--| |+";

pub const NO_SOURCE: &str =
    "Nothing leads to this place from the left; draw the line on to the left rail, or to a + of an upright that a line reaches from its left.";

pub const NO_SOURCE_REFUSED: &str = "\
|  A    Y
+--| | -( )";

pub const NO_SOURCE_MENDED: &str = "\
|  A    Y
+--| |--( )";

pub const NAME_MISSING: &str =
    "This symbol or box has no name; write one in the row right above it, over at least one of its columns.";

pub const NAME_MISSING_REFUSED: &str = "\
|  A
+--| |--( )";

pub const NAME_MISSING_MENDED: &str = "\
|  A    Y
+--| |--( )";

pub const STRAY_NAME: &str =
    "This word is no name of one symbol, box or pin: put each name in the row right above its own symbol, one for each, and choose none of the reserved words.";

pub const STRAY_NAME_REFUSED: &str = "\
|  TON  Y
+--| |--( )";

pub const STRAY_NAME_MENDED: &str = "\
|  GO   Y
+--| |--( )";

pub const UNATTACHED: &str =
    "This network doesn't meet the left rail; lead a line to it from the rail, to a contact, a coil or a left pin of a box.";

pub const UNATTACHED_REFUSED: &str = "\
|     T1
|  +-----+
|  | TON |
|  |IN  Q|
|  +-----+";

pub const UNATTACHED_MENDED: &str = "\
|     T1
|  +-----+
|  | TON |
+--|IN  Q|
|  +-----+";

pub const TOO_TALL: &str =
    "This network has more than 200 rows from its topmost to its lowest; part it, and hand a value from one part to the other by a coil and a contact of one name.";

pub const TOO_TALL_REFUSED: &str = "(an upright of 201 rows)";

pub const TOO_TALL_MENDED: &str =
    "(two networks, the second one with a contact on what the first one stores)";

pub const INSTANCE_TWICE: &str =
    "A box above or to the left has this name already; give each box a name of its own.";

pub const INSTANCE_TWICE_REFUSED: &str = "\
|   C1          C1
|  +-----+     +-----+
|  | CTU |     | CTU |
+--|CU  Q|-----|CU  Q|
|  +-----+     +-----+";

pub const INSTANCE_TWICE_MENDED: &str = "\
|   C1          C2
|  +-----+     +-----+
|  | CTU |     | CTU |
+--|CU  Q|-----|CU  Q|
|  +-----+     +-----+";

pub const UNKNOWN_NAME: &str =
    "This name, or the part of it before the dot, isn't declared; declare it between VAR and END_VAR, or write it as it was declared (a drawing without a plant declares what it uses, but a name before a dot has to be that of a box).";

pub const UNKNOWN_NAME_REFUSED: &str = "\
|  T1.Q  Y
+--| |---( )";

pub const UNKNOWN_NAME_MENDED: &str = "\
|     T1
|  +-----+
|  | TON |
+--|IN  Q|
|  +-----+
|  T1.Q  Y
+--| |---( )";

pub const WRONG_KIND: &str =
    "What stands here isn't of the kind that the place asks for: a contact or coil is of a BOOL, a number is for an INT pin, a duration for a TIME pin, no line leads to or from these, and a box's name is declared as its type.";

pub const WRONG_KIND_REFUSED: &str = "\
|     T1
|  +-----+
|  | TON |
+--|IN  Q|
|5-|PT ET|
|  +-----+";

pub const WRONG_KIND_MENDED: &str = "\
|        T1
|     +-----+
|     | TON |
+-----|IN  Q|
|T#5s-|PT ET|
|     +-----+";

pub const WRITES_INPUT: &str =
    "A coil or an output pin stores into a VAR_INPUT, or in a drawing of --with at a name of the other; store into a VAR_OUTPUT or a VAR, there into a name of its own.";

pub const WRITES_INPUT_REFUSED: &str = "\
PROGRAM P
VAR_INPUT X : BOOL; END_VAR
|  X
+--( )
END_PROGRAM";

pub const WRITES_INPUT_MENDED: &str = "\
PROGRAM P
VAR_OUTPUT X : BOOL; END_VAR
|  X
+--( )
END_PROGRAM";

pub const UNKNOWN_PIN: &str =
    "The block type has no such pin on this side, the pin is drawn twice, or the name behind the dot is no output pin of the box; see the table of blocks in docs/DRAWING.md.";

pub const UNKNOWN_PIN_REFUSED: &str = "\
|     T1
|  +-----+
|  | TON |
+--|ON  Q|
|  +-----+";

pub const UNKNOWN_PIN_MENDED: &str = "\
|     T1
|  +-----+
|  | TON |
+--|IN  Q|
|  +-----+";

pub const PIN_MISSING: &str =
    "A box needs a Boolean pin of its type on its left and one on its right; draw them.";

pub const PIN_MISSING_REFUSED: &str = "\
|     T1
|  +-----+
|  | TON |
+--|IN   |
|  +-----+";

pub const PIN_MISSING_MENDED: &str = "\
|     T1
|  +-----+
|  | TON |
+--|IN  Q|
|  +-----+";

pub const LITERAL_OUT_OF_RANGE: &str =
    "This literal is too large: a number is at most 32767, and a duration at most 2147483647 ms (some 24 days).";

pub const LITERAL_OUT_OF_RANGE_REFUSED: &str = "\
|         C1
|      +-----+
|      | CTU |
+------|CU  Q|
|40000-|PV CV|
|      +-----+";

pub const LITERAL_OUT_OF_RANGE_MENDED: &str = "\
|         C1
|      +-----+
|      | CTU |
+------|CU  Q|
|30000-|PV CV|
|      +-----+";

pub const PLANT_SYNTAX: &str =
    "A word on this line can't stand there, is reserved, or is a number or duration out of its limits, or the text or a comment ends too early; compare the line and the one above with the grammar in docs/PLANT.md.";

pub const PLANT_SYNTAX_REFUSED: &str = "\
RESOURCE R1 ON NODE
  TASK FAST(INTERVAL := 10ms, PRIORITY := 1);
END_RESOURCE";

pub const PLANT_SYNTAX_MENDED: &str = "\
RESOURCE R1 ON NODE
  TASK FAST(INTERVAL := T#10ms, PRIORITY := 1);
END_RESOURCE";

pub const BODY_DRAWING: &str =
    "The drawing of a program isn't well drawn; mend it as the kind behind this word tells, which plc explain knows.";

pub const BODY_DRAWING_REFUSED: &str = "\
PROGRAM P
|
+--( )
END_PROGRAM";

pub const BODY_DRAWING_MENDED: &str = "\
PROGRAM P
VAR_OUTPUT Y : BOOL; END_VAR
|  Y
+--( )
END_PROGRAM";

pub const BODY_GRAPH: &str =
    "A network in the drawing of a program is refused; mend it as the kind behind this word tells, which plc explain knows.";

pub const BODY_GRAPH_REFUSED: &str =
    "(Graph Unattached, as plc explain Unattached shows it, in a program)";

pub const BODY_GRAPH_MENDED: &str = "(the same, mended)";

pub const BODY_BIND: &str =
    "A name in the drawing of a program doesn't fit what the program declares; mend it as the kind behind this word tells, which plc explain knows.";

pub const BODY_BIND_REFUSED: &str = "\
PROGRAM P
|  Y
+--( )
END_PROGRAM";

pub const BODY_BIND_MENDED: &str = "\
PROGRAM P
VAR_OUTPUT Y : BOOL; END_VAR
|  Y
+--( )
END_PROGRAM";

pub const PLANT_NAME_TWICE: &str =
    "A name on this line is declared already in its list, in whatever case; choose another one.";

pub const PLANT_NAME_TWICE_REFUSED: &str = "\
PROGRAM P
VAR_INPUT GO : BOOL; go : INT; END_VAR";

pub const PLANT_NAME_TWICE_MENDED: &str = "\
PROGRAM P
VAR_INPUT GO : BOOL; LIMIT : INT; END_VAR";

pub const PLANT_UNKNOWN_NAME: &str =
    "A name on this line isn't declared: a task stands above in the same resource, a program type at the top of the text, an input in the VAR_INPUT of that type, and a source is resource, instance and a VAR_OUTPUT of its type; check the spelling.";

pub const PLANT_UNKNOWN_NAME_REFUSED: &str = "\
RESOURCE R1 ON NODE
  TASK FAST(INTERVAL := T#10ms, PRIORITY := 1);
  PROGRAM A WITH FATS : COUNT;
END_RESOURCE";

pub const PLANT_UNKNOWN_NAME_MENDED: &str = "\
RESOURCE R1 ON NODE
  TASK FAST(INTERVAL := T#10ms, PRIORITY := 1);
  PROGRAM A WITH FAST : COUNT;
END_RESOURCE";

pub const PLANT_WRONG_KIND: &str =
    "A source on this line isn't of the kind of its input (%IX is a BOOL, %IW an INT, an output what it is declared as), or a block type stands outside VAR or behind RETAIN; bind what has the input's kind, and declare blocks in VAR without RETAIN.";

pub const PLANT_WRONG_KIND_REFUSED: &str = "\
PROGRAM A WITH FAST : COUNT(UP := %IW0);";

pub const PLANT_WRONG_KIND_MENDED: &str = "\
PROGRAM A WITH FAST : COUNT(UP := %IX0);";

pub const INPUT_BOUND_TWICE: &str =
    "An input stands twice in one pair of parentheses; leave one of the two out.";

pub const INPUT_BOUND_TWICE_REFUSED: &str = "\
PROGRAM A WITH FAST : COUNT(UP := %IX0, UP := %IX1);";

pub const INPUT_BOUND_TWICE_MENDED: &str = "\
PROGRAM A WITH FAST : COUNT(UP := %IX0);";

pub const TOO_MANY: &str =
    "This is one more than there may be: 16 resources, 16 tasks of a resource, 64 program types, 64 instances, 1,000 names of a program type, 4,096 bound inputs; leave some out.";

pub const TOO_MANY_REFUSED: &str = "(a 17th resource)";

pub const TOO_MANY_MENDED: &str = "(16 resources)";

pub const TOO_LONG: &str =
    "The plan would have more than 100,000 entries; give --until an earlier moment, or the tasks longer intervals.";

pub const TOO_LONG_REFUSED: &str = "(a task of 1 ms, and --until 100001)";

pub const TOO_LONG_MENDED: &str = "(--until 100000)";

pub const SCHEDULE_SYNTAX: &str =
    "This line is no event, comment or blank line: write EVAL R.T dt with words such as %IX0=1 or %IW2=-7 behind it, DELIVER message R, RESTART R, HEAR R S incarnation, or EXPECT R.P.V=value, and a comment on a line of its own behind #.";

pub const SCHEDULE_SYNTAX_REFUSED: &str = "\
EVAL R1.FAST %IX0=1";

pub const SCHEDULE_SYNTAX_MENDED: &str = "\
EVAL R1.FAST 10 %IX0=1";

pub const DOUBLE_COIL_WARNED: &str = "\
|  A    Y
+--| |--( )
|  B    Y
+--| |--( )";

pub const DOUBLE_COIL_MENDED: &str = "\
|  A     Y
+--| |+--( )
|  B  |
+--| |+";

pub const MISTYPED_CONTACT_WARNED: &str = "\
|  START  MOTOR
+--| |----( )
|  MOTAR  LAMP
+--| |----( )";

pub const MISTYPED_CONTACT_MENDED: &str = "\
|  START  MOTOR
+--| |----( )
|  MOTOR  LAMP
+--| |----( )";

pub const PRESET_BETWEEN_SCANS_WARNED: &str = "\
(* plc verify --dt 10 *)
|          T1
|        +-----+
|  GO    | TON |    Y
+--| |---|IN  Q|---( )
| T#25ms-|PT   |
|        +-----+";

pub const PRESET_BETWEEN_SCANS_MENDED: &str = "\
(* plc verify --dt 5 *)
|          T1
|        +-----+
|  GO    | TON |    Y
+--| |---|IN  Q|---( )
| T#25ms-|PT   |
|        +-----+";

pub const NEVER_READ_WARNED: &str = "\
PROGRAM P
VAR A, M : BOOL; END_VAR
|  A    M
+--| |--( )
END_PROGRAM";

pub const NEVER_READ_MENDED: &str = "\
PROGRAM P
VAR A : BOOL; END_VAR
VAR_OUTPUT M : BOOL; END_VAR
|  A    M
+--| |--( )
END_PROGRAM";

pub const UNBOUND_INPUT: &str =
    "An instance doesn't bind this input, which so keeps its first value, FALSE or 0. Bind it, or take it out of VAR_INPUT.";

pub const UNBOUND_INPUT_WARNED: &str = "PROGRAM A WITH FAST : COUNT;";

pub const UNBOUND_INPUT_MENDED: &str = "PROGRAM A WITH FAST : COUNT(UP := %IX0);";

pub const FAR_ADDRESS: &str =
    "This address is more than 63 away from each other of its kind that its resource reads, though two of these are closer together. Check its number.";

pub const FAR_ADDRESS_WARNED: &str =
    "PROGRAM A WITH FAST : PUMP(START := %IX0, STOP := %IX1, FULL := %IX200);";

pub const FAR_ADDRESS_MENDED: &str =
    "PROGRAM A WITH FAST : PUMP(START := %IX0, STOP := %IX1, FULL := %IX2);";
