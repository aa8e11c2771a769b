// A row is a sheet and what it means behind ` -> `: how many keys it has, and then cells, an input behind `=` in printed form and a rule behind `:`;
// or a fault, its number and its cell. In the sheet `|` stands for a line feed, `^` for a carriage return, `$` for a byte that is never in UTF-8 and
// `%` for a byte order mark. Records and fields are those of Python's csv module, numbers and places in formulas are counted by hand.
pub(crate) const ROWS: &str = r##" -> 0
| -> 0
, -> 0
"" -> 0
"","" -> 0
% -> 0
a -> 1 ; A1="a" ; A2=empty ; B1=empty
10,=A1+A2|20,=B1*2| -> 4 ; A1=10 ; B1:A1+A2 ; A2=20 ; B2:B1*2
10,=A1+A2|20,=B1*2 -> 4 ; A1=10 ; B1:A1+A2 ; A2=20 ; B2:B1*2
10,"=IF(C1=1,B2,A2)",1|20,"=IF(C1=1,A1,B1)"| -> 5 ; A1=10 ; B1:IF(C1=1,B2,A2) ; C1=1 ; A2=20 ; B2:IF(C1=1,A1,B1)
a,b||c -> 3 ; A1="a" ; B1="b" ; A2="c" ; A3=empty
|a -> 1 ; A1="a"
a|""|c -> 2 ; A1="a" ; A2=empty ; A3="c"
a|,|c -> 2 ; A1="a" ; A3="c"
""|a -> 1 ; A2="a"
a^|b -> 2 ; A1="a" ; A2="b"
a^b -> 2 ; A1="a" ; A2="b"
a^^b -> 2 ; A1="a" ; A2="b"
a,b^|^|c -> 3 ; A1="a" ; B1="b" ; A2="c"
1,2,3|4|5,6 -> 6 ; A1=1 ; B1=2 ; C1=3 ; A2=4 ; A3=5 ; B3=6 ; B2=empty
a,"",b -> 2 ; A1="a" ; C1="b"
a,,b, -> 2 ; A1="a" ; C1="b" ; D1=empty
,,,,,,,,,,,,,,,,,,,,,,,,,,x -> 1 ; AA1="x" ; Z1=empty
"a,b",c -> 2 ; A1="a,b" ; B1="c"
"a""b" -> 1 ; A1="a\"b"
"a|b",c|d -> 3 ; A1="a\nb" ; B1="c" ; A2="d"
"a^|b" -> 1 ; A1="a\r\nb"
a"b -> 1 ; A1="a\"b"
a"b",c -> 2 ; A1="a\"b\"" ; B1="c"
"a"b -> 1 ; A1="ab"
"a"b"c,d -> 2 ; A1="ab\"c" ; B1="d"
"a -> 1 ; A1="a"
"a,b|c -> 1 ; A1="a,b\nc"
"x","=B1","5" -> 3 ; A1="x" ; B1:B1 ; C1=5
 a , b  -> 2 ; A1=" a " ; B1=" b "
5,-5,+5,007,-0,+0 -> 6 ; A1=5 ; B1=-5 ; C1=5 ; D1=7 ; E1=0 ; F1=0
"10" -> 1 ; A1=10
9223372036854775807,9223372036854775808 -> 2 ; A1=9223372036854775807 ; B1="9223372036854775808"
-9223372036854775808,-9223372036854775809 -> 2 ; A1=-9223372036854775808 ; B1="-9223372036854775809"
00000000000000000000000000005 -> 1 ; A1=5
 5,5 ,"5 " -> 3 ; A1=" 5" ; B1="5 " ; C1="5 "
1.5,1e3,0x5,5a,1_0 -> 5 ; A1="1.5" ; B1="1e3" ; C1="0x5" ; D1="5a" ; E1="1_0"
+,-,--5,+-5,- 5 -> 5 ; A1="+" ; B1="-" ; C1="--5" ; D1="+-5" ; E1="- 5"
empty,TRUE,#REF!,'5,#a,a;b -> 6 ; A1="empty" ; B1="TRUE" ; C1="#REF!" ; D1="'5" ; E1="#a" ; F1="a;b"
ä,日本 -> 2 ; A1="ä" ; B1="日本"
=1,= 1 + 2,=b2,=sum(a1:b2) -> 4 ; A1:1 ; B1:1+2 ; C1:B2 ; D1:SUM(A1:B2)
="x" -> 1 ; A1:"x"
"=""x, y""" -> 1 ; A1:"x, y"
"=A1|+B1" -> 1 ; A1:A1+B1
 =1,'=1,"" -> 2 ; A1=" =1" ; B1="'=1"
=A1 -> 1 ; A1:A1
%a -> 1 ; A1="a"
%=1 -> 1 ; A1:1
%5,%5 -> 2 ; A1=5 ; B1="%5"
%"a,b" -> 1 ; A1="a,b"
%%a -> 1 ; A1="a"
%%%a -> 1 ; A1="%a"
a,%b -> 2 ; A1="a" ; B1="%b"
a|%b -> 2 ; A1="a" ; A2="%b"
 %a -> 1 ; A1=" %a"
= -> bad syntax 0 A1
==1 -> bad syntax 0 A1
=1+ -> bad syntax 2 A1
=A1:B2 -> bad syntax 2 A1
x,=IF(C1=1,B2,A2) -> bad syntax 7 B1
=A0 -> bad token 0 A1
=FOO(1) -> bad token 0 A1
=price -> bad token 0 A1
=1,=2+|=3* -> bad syntax 2 B1
1,2|3,=?|=( -> bad token 0 B2
|,,=1 1 -> bad syntax 2 C1
$ -> not UTF-8 0 A1
a,$ -> not UTF-8 0 B1
=a1+$ -> not UTF-8 0 A1
"$",=( -> not UTF-8 0 A1
=(,$ -> bad syntax 1 A1
=SUM(A1:ZZ9999) -> too many cells 4 A1"##;
