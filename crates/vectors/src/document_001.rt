// The examples of document 001, which prints no waits: each is the time that document 01 gives the transfer before. The text
// of the document has lost the drawings of 3.2.1 from step 9 on, of 3.2.2 before step 9, of 3.2.3 and of 1.7.6.1; there the
// words beside them are followed.

// Steps 1 to 25. Step 7 stands for the letters between.
const ONE_LINE: &str = "\
= document 001, 3.2.1: 16 characters x 1 line, using CG RAM
 1 P             L |                | no cursor
 2 I 30    10000 L |                | no cursor
# prints ten places, the last four without effect; eight are sent
 3 I 0E       40 L |                | cursor 1:01
 4 I 06       40 L |                | cursor 1:01
 5 D 4C       40 L |L               | cursor 1:02
 6 D 43       40 L |LC              | cursor 1:03
 7 D 44       40 L |LCD             | cursor 1:04
 7 D 20       40 L |LCD             | cursor 1:05
 7 D 4D       40 L |LCD M           | cursor 1:06
 7 D 4F       40 L |LCD MO          | cursor 1:07
 7 D 44       40 L |LCD MOD         | cursor 1:08
 7 D 55       40 L |LCD MODU        | cursor 1:09
 7 D 4C       40 L |LCD MODUL       | cursor 1:10
 7 D 45       40 L |LCD MODULE      | cursor 1:11
 7 D 20       40 L |LCD MODULE      | cursor 1:12
 7 D 44       40 L |LCD MODULE D    | cursor 1:13
 7 D 4D       40 L |LCD MODULE DM   | cursor 1:14
 7 D 43       40 L |LCD MODULE DMC  | cursor 1:15
 7 D 31       40 L |LCD MODULE DMC1 | cursor 1:16
 8 D 36       40 L |LCD MODULE DMC16| no cursor
 9 I 80       40 L |LCD MODULE DMC16| cursor 1:01
# prints nine bits, as in 10 to 16 and 25; eight are sent, without the 0 too many
10 I 1C       40 L | LCD MODULE DMC1| cursor 1:02
11 I 1C       40 L |  LCD MODULE DMC| cursor 1:03
12 I 08       40 L |                | no cursor
13 I 0E       40 L |  LCD MODULE DMC| cursor 1:03
14 I 02       40 L |LCD MODULE DMC16| cursor 1:01
15 I 01     1640 L |                | cursor 1:01
16 I 50     1640 L |                | no cursor
# prints 0 1010 0000; character 3 begins at pattern cell 10h, so it is 50h
17 D 1F       40 L |                | no cursor
18 D 15       40 L |                | no cursor
19 D 14       40 L |                | no cursor
20 D 1F       40 L |                | no cursor
21 D 55       40 L |                | no cursor
# the upper three bits are not shown
22 D 15       40 L |                | no cursor
23 D 1F       40 L |                | no cursor
24 I 80       40 L |                | cursor 1:01
# prints 00h, which does nothing; a display address has bit 7
25 D 02       40 L |~               | cursor 1:02
25 -             1 ***** *.*.* *.*.. ***** *.*.* *.*.* ***** .....
# the rows of 17 to 23; ~ stands for a shape that is no letter's
";

// Steps 1 to 15. Steps 7 and 12 stand for the letters between.
const TWO_LINES: &str = "\
= document 001, 3.2.2: 16 characters x 2 lines
 1 P             T |                |                | no cursor
 2 I 38    10000 T |                |                | no cursor
 3 I 0E       40 T |                |                | cursor 1:01
 4 I 06       40 T |                |                | cursor 1:01
 5 D 4C       40 T |L               |                | cursor 1:02
 6 D 43       40 T |LC              |                | cursor 1:03
 7 D 44       40 T |LCD             |                | cursor 1:04
 7 D 20       40 T |LCD             |                | cursor 1:05
 7 D 4D       40 T |LCD M           |                | cursor 1:06
 7 D 4F       40 T |LCD MO          |                | cursor 1:07
 7 D 44       40 T |LCD MOD         |                | cursor 1:08
 7 D 55       40 T |LCD MODU        |                | cursor 1:09
 7 D 4C       40 T |LCD MODUL       |                | cursor 1:10
 7 D 45       40 T |LCD MODULE      |                | cursor 1:11
 7 D 20       40 T |LCD MODULE      |                | cursor 1:12
 7 D 44       40 T |LCD MODULE D    |                | cursor 1:13
 7 D 4D       40 T |LCD MODULE DM   |                | cursor 1:14
 7 D 43       40 T |LCD MODULE DMC  |                | cursor 1:15
 7 D 31       40 T |LCD MODULE DMC1 |                | cursor 1:16
 8 D 36       40 T |LCD MODULE DMC16|                | no cursor
 9 I C0       40 T |LCD MODULE DMC16|                | cursor 2:01
# prints nine bits, as in 14 and 15; eight are sent, without the 0 too many
10 D 31       40 T |LCD MODULE DMC16|1               | cursor 2:02
# prints 33h, which is 3; the display and the words have 1
11 D 36       40 T |LCD MODULE DMC16|16              | cursor 2:03
# prints 32h, which is 2; the display and the words have 6
12 D 20       40 T |LCD MODULE DMC16|16              | cursor 2:04
12 D 44       40 T |LCD MODULE DMC16|16 D            | cursor 2:05
12 D 49       40 T |LCD MODULE DMC16|16 DI           | cursor 2:06
12 D 47       40 T |LCD MODULE DMC16|16 DIG          | cursor 2:07
12 D 49       40 T |LCD MODULE DMC16|16 DIGI         | cursor 2:08
12 D 54       40 T |LCD MODULE DMC16|16 DIGIT        | cursor 2:09
12 D 53       40 T |LCD MODULE DMC16|16 DIGITS       | cursor 2:10
12 D 2C       40 T |LCD MODULE DMC16|16 DIGITS,      | cursor 2:11
12 D 20       40 T |LCD MODULE DMC16|16 DIGITS,      | cursor 2:12
12 D 32       40 T |LCD MODULE DMC16|16 DIGITS, 2    | cursor 2:13
12 D 20       40 T |LCD MODULE DMC16|16 DIGITS, 2    | cursor 2:14
12 D 4C       40 T |LCD MODULE DMC16|16 DIGITS, 2 L  | cursor 2:15
12 D 49       40 T |LCD MODULE DMC16|16 DIGITS, 2 LI | cursor 2:16
12 D 4E       40 T |LCD MODULE DMC16|16 DIGITS, 2 LIN| no cursor
12 D 45       40 T |LCD MODULE DMC16|16 DIGITS, 2 LIN| no cursor
13 D 53       40 T |LCD MODULE DMC16|16 DIGITS, 2 LIN| no cursor
# prints 2Ah, which is *; the words have S
# prints 18 letters and a cursor; a line of 16 shows the first 16
14 I 80       40 T |LCD MODULE DMC16|16 DIGITS, 2 LIN| cursor 1:01
15 I 01       40 T |                |                | cursor 1:01
";

// Steps 1 to 6. Each byte from step 3 on is two halves.
const FOUR_BITS: &str = "\
= document 001, 3.2.3: 16 characters x 2 lines, 4-bit interface
 1 P             T |                |                | no cursor
 2 I 20    10000 T |                |                | no cursor
 3 I 20 80    40 T |                |                | no cursor
 4 I 00 E0    40 T |                |                | cursor 1:01
 5 I 00 60    40 T |                |                | cursor 1:01
 6 D 40 C0    40 T |L               |                | cursor 1:02
# prints R/W=1 beside the first half; a write has R/W=0 beside both
";

// Not shifted, after one left shift and after one right shift: "the display window is incremented or decremented through
// the entire 80 byte DD RAM".
const SHIFTED_LINE: &str = "\
= document 001, 1.7.6.1: display shift with one line
   P
   I 30    10000
   I 0C       40
   F
 1 -             A 00 01 02 03 04 05 06 07
 2 I 18       40 A 01 02 03 04 05 06 07 08
   I 02       40
 3 I 1C     1640 A 4F 00 01 02 03 04 05 06
";

// The same with two lines: the table of 1.7.6.3, and the two that 1.7.6.2 prints for the halves of a divided line.
const SHIFTED_LINES: &str = "\
= document 001, 1.7.6.3 and 1.7.6.2: display shift with two lines of 8
   P
   I 38    10000
   I 0C       40
   F
 1 -             B 00 01 02 03 04 05 06 07 | 40 41 42 43 44 45 46 47
 2 I 18       40 B 01 02 03 04 05 06 07 08 | 41 42 43 44 45 46 47 48
   I 02       40
 3 I 1C     1640 B 27 00 01 02 03 04 05 06 | 67 40 41 42 43 44 45 46
";

// Section 3.2, "Examples of Instructions", and section 1.7.6.
pub const EXAMPLES: [&str; 5] = [ONE_LINE, TWO_LINES, FOUR_BITS, SHIFTED_LINE, SHIFTED_LINES];
