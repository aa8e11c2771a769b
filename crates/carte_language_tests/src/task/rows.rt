//! Formulas and what they come to.
//!
//! Where a meaning is Excel's, these are the values that its documentation gives for such formulas, and else they are worked out by hand from
//! docs/FORMULAS.md. What a formula comes to that isn't static stands behind `dynamic`.

pub(crate) const VALUES: &str = r#"zero 0
one 1
two 2
minus -3
max 9223372036854775807
least -9223372036854775808
word "ab"
void empty
nothing ""
digits "42"
lines "one\ntwo\n"
roster "two\nword"
twice "one\none\n"
mixed "two\nWORD"
gap "two\n\nword"
ended "a\n"
both "a\nb"
feeds "\n\n"
key "two"
cell "B2"
div #DIV/0!
value #VALUE!
ref #REF!
num #NUM!
len #LEN!"#;

pub(crate) const OPERATORS: &str = r#"7 -> 7
007 -> 7
"say ""hi""" -> "say \"hi\""
two -> 2
+two -> 2
-two -> -2
--minus -> -3
-least -> #NUM!
-word -> #VALUE!
-void -> 0
-div -> #DIV/0!
one+two*two -> 5
(one+two)*two -> 6
7-2-1 -> 4
-2*3 -> -6
2*3+4*5 -> 26
7/2 -> 3
7/-2 -> -3
-7/2 -> -3
-7/-2 -> 3
1/3 -> 0
100/7/2 -> 7
least / -1 -> #NUM!
least / 1 -> -9223372036854775808
1/zero -> #DIV/0!
1/void -> #DIV/0!
0/0 -> #DIV/0!
void / 5 -> 0
word / 0 -> #VALUE!
max+1 -> #NUM!
max+1-1 -> #NUM!
max-1+1 -> 9223372036854775807
least-1 -> #NUM!
max*2 -> #NUM!
least*-1 -> #NUM!
least+max -> -1
0-least -> #NUM!
-1-least -> 9223372036854775807
void+4 -> 4
void*9 -> 0
"4"+1 -> #VALUE!
"x"+1 -> #VALUE!
1-word -> #VALUE!
word*div -> #DIV/0!
"x"+1/0 -> #DIV/0!
1/0+"x" -> #DIV/0!
div+ref -> #DIV/0!
ref+div -> #REF!
num*(1/0) -> #NUM!
len-1 -> #LEN!
1&2 -> "12"
word&minus -> "ab-3"
void&void -> ""
void&word -> "ab"
1+2&3 -> "33"
word&num&div -> #NUM!
least&max -> "-92233720368547758089223372036854775807"
1+2&3=33 -> 0
1+2&3="33" -> 1
2<10 -> 1
"2"<"10" -> 0
word="AB" -> 0
"a"="A" -> 0
"Z"<"a" -> 1
"a"<"ab" -> 1
99<"1" -> 1
"1">99 -> 1
1="1" -> 0
1<>"1" -> 1
void=0 -> 1
void="" -> 1
void=void -> 1
void<1 -> 1
void>-1 -> 1
void<"a" -> 1
nothing<0 -> 0
max<nothing -> 1
1=1=0 -> 0
2<=2 -> 1
3<=2 -> 0
2>=3 -> 0
2>=2 -> 1
2<>2 -> 0
5>2 -> 1
2>5 -> 0
div=div -> #DIV/0!
word<ref -> #REF!"#;

pub(crate) const FUNCTIONS: &str = r#"SUM(1,2,3) -> 6
SUM(1,"2",3) -> 4
SUM(1,digits,void,3) -> 4
SUM(max,1,-1) -> 9223372036854775807
SUM(9223372036854775807,1,-1) -> 9223372036854775807
SUM(max,1) -> #NUM!
SUM(least,-1,max) -> -2
SUM(word) -> 0
SUM(1,1/0) -> #DIV/0!
SUM(1,ref,div) -> #REF!
SUM(word,div) -> #DIV/0!
MIN(3,1,2) -> 1
MIN("a") -> 0
MIN(5,void) -> 5
MIN(-5,5) -> -5
MIN(7,num) -> #NUM!
MAX(3,1,2) -> 3
MAX(-5,-7) -> -5
MAX(void) -> 0
MAX(value,9) -> #VALUE!
COUNT(1,"2",1/0) -> 1
COUNT(zero,0,void) -> 2
COUNT(div) -> 0
CONCAT("a",1,-2) -> "a1-2"
CONCAT(word,void,1) -> "ab1"
CONCAT(void) -> ""
CONCAT(word,len) -> #LEN!
AND(1,2) -> 1
AND(1,0) -> 0
AND(void) -> 0
AND(0,word) -> #VALUE!
AND(word,num) -> #NUM!
OR(0,3) -> 1
OR(0,void) -> 0
OR(1,"x") -> #VALUE!
OR(1,div) -> #DIV/0!
NOT(0) -> 1
NOT(5) -> 0
NOT(void) -> 1
NOT(nothing) -> #VALUE!
NOT(ref) -> #REF!
LEN("abc") -> 3
LEN(-120) -> 4
LEN(void) -> 0
LEN("ä") -> 2
LEN(num) -> #NUM!
UPPER("straße") -> "STRAßE"
UPPER(word&1) -> "AB1"
UPPER(void) -> ""
UPPER(ref) -> #REF!
LINES(lines) -> 2
LINES(gap) -> 3
LINES("a") -> 1
LINES("") -> 0
LINES(void) -> 0
LINES(42) -> 1
LINES(div) -> #DIV/0!
LINES(ended) -> 1
LINES(both) -> 2
LINES(feeds) -> 2
LINE("",1) -> #VALUE!
LINE("",2) -> #VALUE!
LINE("a",1) -> "a"
LINE("a",2) -> #VALUE!
LINE(ended,1) -> "a"
LINE(ended,2) -> #VALUE!
LINE(both,1) -> "a"
LINE(both,2) -> "b"
LINE(feeds,1) -> ""
LINE(feeds,2) -> ""
LINE(lines,1) -> "one"
LINE(lines,2) -> "two"
LINE(lines,3) -> #VALUE!
LINE(lines,0) -> #VALUE!
LINE(lines,-1) -> #VALUE!
LINE(lines,max) -> #VALUE!
LINE(lines,void) -> #VALUE!
LINE(lines,"1") -> #VALUE!
LINE(gap,2) -> ""
LINE(12,1) -> "12"
LINE(void,1) -> #VALUE!
LINE(word,div) -> #DIV/0!
LINE(ref,div) -> #REF!
PICK(one,two,word) -> 2
PICK(zero,two,word) -> "ab"
PICK(void,1,2) -> 2
PICK(1,5,1/0) -> 5
PICK(1,div,5) -> #DIV/0!
PICK(word,ref,num) -> #VALUE!
PICK(num,1,ref) -> #NUM!"#;

pub(crate) const CHOICES: &str = r#"IF(1,2) -> 2
IF(0,2) -> 0
IF(0,1/0) -> 0
IF(1,2,1/0) -> 2
IF(-1,1,2) -> 1
IF(void,1,2) -> 2
IF(word,1,2) -> #VALUE!
IF(div,1,2) -> #DIV/0!
IF(one=2,1,IF(two=2,3,4)) -> dynamic 3
IF(two>one,"more","less")&"!" -> "more!"
IF(one,two,absent) -> dynamic 2
IF(zero,absent,two) -> dynamic 2
IF(word,absent,absent) -> dynamic #VALUE!
IF(num,absent,absent) -> dynamic #NUM!
IF(one,num,absent) -> dynamic #NUM!
IF(one,IF(zero,absent,word),absent) -> dynamic "ab"
1+IF(one,two,absent)*2 -> dynamic 5
SUM(1,IF(zero,absent,two),3) -> dynamic 6
INDIRECT(key) -> dynamic 2
INDIRECT("t"&"wo") -> dynamic 2
INDIRECT(cell) -> dynamic #REF!
INDIRECT("two ") -> dynamic #REF!
INDIRECT(two) -> dynamic #REF!
INDIRECT(void) -> dynamic #REF!
INDIRECT("") -> dynamic #REF!
INDIRECT(num) -> dynamic #NUM!
INDIRECT("num") -> dynamic #NUM!
1/0&INDIRECT("") -> dynamic #DIV/0!
INDIRECT(key)+INDIRECT("one") -> dynamic 3
SUM(1,INDIRECT(key)) -> dynamic 3
GATHER(roster) -> dynamic "2ab"
GATHER(twice) -> dynamic "11"
GATHER(mixed) -> dynamic #REF!
GATHER(gap) -> dynamic #REF!
GATHER("") -> dynamic ""
GATHER(void) -> dynamic ""
GATHER("void") -> dynamic ""
GATHER("div") -> dynamic #DIV/0!
GATHER(12) -> dynamic #REF!
GATHER(num) -> dynamic #NUM!
LEN(GATHER(roster))&UPPER(GATHER(roster)) -> dynamic "32AB""#;

pub(crate) const CELLS: &str = r#"A1 5
A2 "x"
A4 "b1"
B1 7
B2 -3
B3 #NUM!
C1 "b1\nA1"
C2 "total"
C3 "b1\n\nA1"
C4 "b2\nB1""#;

pub(crate) const SHEET: &str = r#"A1+b1 -> 12
D9 -> empty
D9+1 -> 1
D9=0 -> 1
D9="" -> 1
D9=E9 -> 1
D9>-1 -> 1
D9<"a" -> 1
SUM(A1:B2) -> 9
sum(b2:a1) -> 9
CONCAT(A1:B2) -> "57x-3"
CONCAT(B2:A1,"!") -> "57x-3!"
COUNT(A1:B3) -> 3
SUM(A1:B3) -> #NUM!
MIN(A1:B2) -> -3
MAX(A1:C1,2) -> 7
AND(A1:B1) -> 1
AND(A1:B2) -> #VALUE!
AND(A1:A9) -> #VALUE!
AND(D1:E2,1) -> 0
OR(D1:E2) -> 0
COUNT(D1:E2) -> 0
SUM(D1:E2) -> 0
CONCAT(D1:E2) -> ""
SUM(A1:A1,A1) -> 10
IF(D1,1,2) -> 2
IF(A1=5,B1,B2) -> dynamic 7
INDIRECT("b2") -> dynamic -3
INDIRECT("B"&1+1) -> dynamic -3
INDIRECT(A4) -> dynamic 7
INDIRECT("Z99") -> dynamic empty
INDIRECT("A01") -> dynamic #REF!
INDIRECT("total") -> dynamic #REF!
INDIRECT(2) -> dynamic #REF!
INDIRECT("") -> dynamic #REF!
INDIRECT(C2) -> dynamic #REF!
GATHER(C1) -> dynamic "75"
GATHER(C4) -> dynamic "-37"
GATHER("") -> dynamic ""
GATHER(12) -> dynamic #REF!
GATHER(C2) -> dynamic #REF!
GATHER(C3) -> dynamic #REF!
GATHER(D1) -> dynamic """#;
