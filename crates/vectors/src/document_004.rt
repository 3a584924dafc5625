// The examples of document 004. Its waits are 15 ms before the first transfer, 1.6 ms after 01h and 02h, and 40 us after all
// else; for the 1.6 ms document 01 has 1,640.

// "8 bit, 1 line": "an automatically incremented display with steady line cursor".
const EIGHT_BITS: &str = "\
= document 004, display initialisation: 8 bits, 1 line
   P
 1 I 30    15000
 2 I 30       40
 3 I 30       40
 4 I 06       40
 5 I 0E       40
 6 I 01       40 R width 8 N=0 F=0 D=1 C=1 B=0 I/D=1 S=0 shift 00 display cell 00
 6 -             L |                | cursor 1:01
";

// "8 bit, 2 lines".
const EIGHT_BITS_TWO_LINES: &str = "\
= document 004, display initialisation: 8 bits, 2 lines
   P
 1 I 38    15000
 2 I 38       40
 3 I 38       40
 4 I 06       40
 5 I 0E       40
 6 I 01       40 R width 8 N=1 F=0 D=1 C=1 B=0 I/D=1 S=0 shift 00 display cell 00
 6 -             T |                |                | cursor 1:01
";

// "4 bit, 1 line".
const FOUR_BITS: &str = "\
= document 004, display initialisation: 4 bits, 1 line
   P
 1 I 30    15000
 2 I 30       40
 3 I 30       40
 4 I 20       40
 5 I 20 00    40
 6 I 00 60    40
 7 I 00 E0    40
 8 I 00 10    40 R width 4 N=0 F=0 D=1 C=1 B=0 I/D=1 S=0 shift 00 display cell 00
 8 -             L |                | cursor 1:01
";

// "For 2 lines change the repeated 20 code".
const FOUR_BITS_TWO_LINES: &str = "\
= document 004, display initialisation: 4 bits, 2 lines
   P
 1 I 30    15000
 2 I 30       40
 3 I 30       40
 4 I 20       40
 5 I 20 80    40
# the words allow 24h too, which is F=1 with one line; two lines are 28h
 6 I 00 60    40
 7 I 00 E0    40
 8 I 00 10    40 R width 4 N=1 F=0 D=1 C=1 B=0 I/D=1 S=0 shift 00 display cell 00
 8 -             T |                |                | cursor 1:01
";

// No half waits. "8 bit, 2 lines" follows.
const FROM_WIDTH_FOUR: &str = "\
= document 004, reset function: function set three times, left at width 4
   P
   I 20    10000
 1 I 30    15000
 2 I 30       40
 3 I 30       40 R width 8 N=0 F=0 D=0 C=0 B=0 I/D=1 S=0 shift 00 display cell 00
# the table prints two; the words have three
 4 I 38       40
 5 I 38       40
 6 I 38       40
 7 I 06       40
 8 I 0E       40
 9 I 01       40 R width 8 N=1 F=0 D=1 C=1 B=0 I/D=1 S=0 shift 00 display cell 00
 9 -             T |                |                | cursor 1:01
";

// Half a data write waits, and the first 30h completes it. "8 bit, 2 lines" follows.
const FROM_DATA_HALF: &str = "\
= document 004, reset function: function set three times, left with half a data write
   P
   I 20    10000
   D 40       40
 1 I 30    15000
 2 I 30       40
 3 I 30       40 R width 8 N=0 F=0 D=0 C=0 B=0 I/D=1 S=0 shift 00 display cell 01
 4 I 38       40
 5 I 38       40
 6 I 38       40
 7 I 06       40
 8 I 0E       40
 9 I 01       40 R width 8 N=1 F=0 D=1 C=1 B=0 I/D=1 S=0 shift 00 display cell 00
 9 -             T |                |                | cursor 1:01
";

// Half an instruction waits, 0h, and the first 30h makes it Home. "4 bit, 2 lines" goes on from its fourth byte.
const FROM_INSTRUCTION_HALF: &str = "\
= document 004, reset function: function set three times, left with half an instruction
   P
   I 20    10000
   I 00       40
 1 I 30    15000
 2 I 30     4100
 3 I 30      100 R width 8 N=0 F=0 D=0 C=0 B=0 I/D=1 S=0 shift 00 display cell 00
# the half and 3h make Home, which takes 1,640 us: the waits are those of document 01's plan
 4 I 20      100
 5 I 20 80   100
 6 I 00 60    40
 7 I 00 E0    40
 8 I 00 10    40 R width 4 N=1 F=0 D=1 C=1 B=0 I/D=1 S=0 shift 00 display cell 00
 8 -             T |                |                | cursor 1:01
";

// The worked example, the display's column row by row.
const PATTERNS: &str = "\
= document 004, programming CG RAM
   P
   I 38    15000
   I 38       40
   I 38       40
   I 06       40
   I 0E       40
   I 01       40
   D 00     1640
# prints 1.6 ms after 01h; document 01 has 1,640 us
   D 01       40
   I 0C       40
# codes 00h and 01h stand at the first two positions, so that each row shows as it is written
 1 I 40       40
 2 D 11       40 1 *...* ..... ..... ..... ..... ..... ..... .....
 3 D 0A       40 1 *...* .*.*. ..... ..... ..... ..... ..... .....
# the prose prints 00 for LHLHL; the example has 0A
 4 D 1F       40 1 *...* .*.*. ***** ..... ..... ..... ..... .....
 5 D 04       40 1 *...* .*.*. ***** ..*.. ..... ..... ..... .....
 6 D 1F       40 1 *...* .*.*. ***** ..*.. ***** ..... ..... .....
 7 D 04       40 1 *...* .*.*. ***** ..*.. ***** ..*.. ..... .....
 8 D 04       40 1 *...* .*.*. ***** ..*.. ***** ..*.. ..*.. .....
 9 D 00       40 1 *...* .*.*. ***** ..*.. ***** ..*.. ..*.. .....
10 D 15       40 2 *.*.* ..... ..... ..... ..... ..... ..... .....
";

// Table 2, and its note on the codes that select a pattern.
const PATTERN_TABLE: &str = "\
= document 004, table 2: pattern examples 1 and 2
   P
   I 38    15000
   I 0C       40
 1 I 40       40
 1 D 1E       40
 1 D 11       40
 1 D 11       40
 1 D 1E       40
 1 D 14       40
 1 D 12       40
 1 D 11       40
 1 D 00       40
 2 D 11       40
 2 D 0A       40
 2 D 1F       40
 2 D 04       40
 2 D 1F       40
 2 D 04       40
 2 D 04       40
 2 D 00       40
   I 80       40
 1 D 00       40 1 ****. *...* *...* ****. *.*.. *..*. *...* .....
 1 D 08       40 2 ****. *...* *...* ****. *.*.. *..*. *...* .....
# prints 0Bh, which shows the fourth pattern; bit 3 is without effect, so it is 08h
   I 80       40
 2 D 01       40 1 *...* .*.*. ***** ..*.. ***** ..*.. ..*.. .....
";

// The four sequences from power on; "The function set instruction, sent three times, will always select the 8-bit wide interface
// mode."; and the patterns.
pub const EXAMPLES: [&str; 9] = [
    EIGHT_BITS,
    EIGHT_BITS_TWO_LINES,
    FOUR_BITS,
    FOUR_BITS_TWO_LINES,
    FROM_WIDTH_FOUR,
    FROM_DATA_HALF,
    FROM_INSTRUCTION_HALF,
    PATTERNS,
    PATTERN_TABLE,
];
