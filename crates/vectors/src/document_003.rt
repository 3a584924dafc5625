// The examples of document 003. Where its tables have dots between the columns, the addresses go on in order.

// The three tables: not shifted, after one left shift, after one right shift.
const SHIFTED_LINES: &str = "\
= document 003, 4.4: display shift with two lines of 8
   P
   I 38    10000
   I 0C       40
   F
 1 -             B 00 01 02 03 04 05 06 07 | 40 41 42 43 44 45 46 47
 2 I 18       40 B 01 02 03 04 05 06 07 08 | 41 42 43 44 45 46 47 48
   I 02       40
 3 I 1C     1640 B 27 00 01 02 03 04 05 06 | 67 40 41 42 43 44 45 46
";

// The letter of table 4.2, written by the five steps.
const PATTERN_STEPS: &str = "\
= document 003, 4.6, steps A to E: a pattern for code 01h
   P
   I 38    10000
   I 0C       40
 A I 48       40
# prints CGRAM address=48H; 48h is the instruction, the address is 08h
 B D 0E       40
 C D 11       40
 C D 11       40
 C D 11       40
 C D 1F       40
 C D 11       40
 C D 11       40
 D I 80       40
 E D 01       40 T |A               |                | no cursor
 E -             1 .***. *...* *...* *...* ***** *...* *...* .....
";

// Note 4: the first pattern is selected by 00h or 08h.
const PATTERN_TABLE: &str = "\
= document 003, table 4.2: patterns 1 and 8
   P
   I 38    10000
   I 0C       40
 1 I 40       40
 1 D 0E       40
 1 D 11       40
 1 D 11       40
 1 D 11       40
 1 D 1F       40
 1 D 11       40
 1 D 11       40
 1 D 00       40
# prints two rows of 10001 too many before the cursor's row; a pattern has eight rows
 8 I 78       40
 8 D 11       40
 8 D 11       40
 8 D 11       40
 8 D 11       40
 8 D 1F       40
 8 D 11       40
 8 D 11       40
 8 D 00       40
# prints the same two rows too many
   I 80       40
 1 D 00       40 1 .***. *...* *...* *...* ***** *...* *...* .....
 1 D 08       40 2 .***. *...* *...* *...* ***** *...* *...* .....
   I 80       40
 8 D 07       40 1 *...* *...* *...* *...* ***** *...* *...* .....
";

// N=1, F=0; D=C=1, B=0; Clear; I/D=1, S=0.
const FOUR_BIT_START: &str = "\
= document 003, 5.2.2: software initialization, 4 bits
   P
 1 I 20    30000
 2 I 20 80    40
 3 I 00 E0    40
# prints 38 us, before 4 too; document 01 has 40
 4 I 00 10    40
 5 I 00 60  1640 R width 4 N=1 F=0 D=1 C=1 B=0 I/D=1 S=0 shift 00 display cell 00
# prints 1.52 ms; document 01 has 1,640 us
";

pub const EXAMPLES: [&str; 4] = [SHIFTED_LINES, PATTERN_STEPS, PATTERN_TABLE, FOUR_BIT_START];
