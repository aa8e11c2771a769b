//! Which texts are formulas, how they are printed, and what they refer to.

use crate::rows::{Told, rows_hold};
use crate::texts::named;
use carte_formula::{is_static, print, read, refs};
use carte_value::{Kind, NoMemory, Seeded};
use std::alloc::Global;
use std::test::Fail;

// A row is the kind of book, a text, and how it is printed or which fault it has, worked out by hand from
// docs/FORMULAS-GRAMMAR.md.
const TEXTS: &str = r#"both 0 -> 0
both 007 -> 7
both 9223372036854775807 -> 9223372036854775807
both 00000000000009223372036854775807 -> 9223372036854775807
both 9223372036854775808 -> bad token at 0
both 1+9223372036854775808 -> bad token at 2
both -9223372036854775808 -> bad token at 1
both 99999999999999999999999999999999 -> bad token at 0
both 1.5 -> bad token at 1
both 1e5 -> bad syntax at 1
both 12 34 -> bad syntax at 3
rules 1a -> bad syntax at 1
sheet 1A1 -> bad syntax at 1
both "" -> ""
both "a b" -> "a b"
both "say ""hi""" -> "say ""hi"""
both """" -> """"
both """""" -> """"""
both "1+?[" -> "1+?["
both "äöü€" -> "äöü€"
both " -> bad token at 0
both """ -> bad token at 0
both "abc -> bad token at 0
both "a""b -> bad token at 0
both "a""b" -> "a""b"
both 1&"abc -> bad token at 2
both "a" "b" -> bad syntax at 4
both "a"1 -> bad syntax at 3
both 'a' -> bad token at 0
both 1=2 -> 1=2
both 1<>2 -> 1<>2
both 1<=2 -> 1<=2
both 1>=2 -> 1>=2
both 1<2 -> 1<2
both 1>2 -> 1>2
both 1<-2 -> 1<-2
both 1>+2 -> 1>2
both 1>=-2 -> 1>=-2
both 1< =2 -> bad syntax at 3
both 1<>=2 -> bad syntax at 3
both 1><2 -> bad syntax at 2
both 1=<2 -> bad syntax at 2
both 1=>2 -> bad syntax at 2
both 1==2 -> bad syntax at 2
both 1<<2 -> bad syntax at 2
both 1> =2 -> bad syntax at 3
both 1!2 -> bad token at 1
both 1^2 -> bad token at 1
both 50% -> bad token at 2
both {1} -> bad token at 0
both 1;2 -> bad token at 1
both 1+$A$1 -> bad token at 2
both #REF! -> bad token at 0
both é1 -> bad token at 0
both 1+é -> bad token at 2
rules a -> a
rules price -> price
rules total/net_2.x -> total/net_2.x
rules a/b -> a/b
rules a /b -> a /b
rules a  /(b+1) -> a /(b+1)
rules a/ b -> bad syntax at 3
rules a/2 -> a/2
rules 2/a -> 2 /a
rules a/b / 007 -> a/b /7
rules a-b -> a-b
rules -a/b -> -a/b
rules aB -> bad token at 1
rules aSUM(1) -> bad syntax at 1
rules Sum(1) -> bad token at 0
rules SUMS(1) -> bad token at 0
rules SU(1) -> bad token at 0
rules SUM1(2) -> bad syntax at 3
rules SUMa -> bad syntax at 3
rules sum(1) -> bad syntax at 3
rules A1 -> bad token at 0
rules _a -> bad token at 0
rules .5 -> bad token at 0
rules /a -> bad syntax at 0
rules a(1) -> bad syntax at 1
rules a b -> bad syntax at 2
rules a"b" -> bad syntax at 1
rules a;b -> bad token at 1
rules b ? c -> bad token at 2
rules abcdefghijklmnopqrstuvwxyz0123456789abcdefghijklmnopqrstuvwxyz01 -> abcdefghijklmnopqrstuvwxyz0123456789abcdefghijklmnopqrstuvwxyz01
rules abcdefghijklmnopqrstuvwxyz0123456789abcdefghijklmnopqrstuvwxyz012 -> bad token at 0
rules 1+abcdefghijklmnopqrstuvwxyz0123456789abcdefghijklmnopqrstuvwxyz012 -> bad token at 2
sheet A1 -> A1
sheet a1 -> A1
sheet aB12 -> AB12
sheet zz9999 -> ZZ9999
sheet A0 -> bad token at 0
sheet A01 -> bad token at 0
sheet A10000 -> bad token at 0
sheet AAA1 -> bad token at 0
sheet A -> bad token at 0
sheet total -> bad token at 0
sheet A1B2 -> bad token at 0
sheet A1_ -> bad token at 2
sheet A1.5 -> bad token at 2
sheet A1/B2 -> A1 /B2
sheet A1 B1 -> bad syntax at 3
sheet sum(a1) -> SUM(A1)
sheet SuM (A1) -> SUM(A1)
sheet SUM1(A1) -> bad token at 0
sheet or(1) -> OR(1)
sheet OR1 -> OR1
sheet IF1(2) -> bad syntax at 3
sheet IF -> bad syntax at 2
both SUM(1,2,"x") -> SUM(1,2,"x")
both MIN(1) -> MIN(1)
both MAX(1,2) -> MAX(1,2)
both COUNT(1) -> COUNT(1)
both CONCAT("a",1) -> CONCAT("a",1)
both AND(1,0) -> AND(1,0)
both OR(0) -> OR(0)
both LEN("a") -> LEN("a")
both UPPER("a") -> UPPER("a")
both LINES("a") -> LINES("a")
both LINE("a",1) -> LINE("a",1)
both NOT(1) -> NOT(1)
both IF(1,2,3) -> IF(1,2,3)
both IF(1, 2) -> IF(1,2,0)
both IF(1,IF(2,3),4) -> IF(1,IF(2,3,0),4)
rules IF(c, a) -> IF(c,a,0)
both PICK(1,2,3) -> PICK(1,2,3)
both INDIRECT("a") -> INDIRECT("a")
both GATHER("a") -> GATHER("a")
both SUM() -> bad syntax at 4
both MIN() -> bad syntax at 4
both MAX() -> bad syntax at 4
both COUNT() -> bad syntax at 6
both CONCAT() -> bad syntax at 7
both AND() -> bad syntax at 4
both OR() -> bad syntax at 3
both LEN() -> bad syntax at 4
both UPPER() -> bad syntax at 6
both LINES() -> bad syntax at 6
both LINE() -> bad syntax at 5
both LINE(1) -> bad syntax at 6
both NOT() -> bad syntax at 4
both IF() -> bad syntax at 3
both IF(1) -> bad syntax at 4
both PICK() -> bad syntax at 5
both PICK(1) -> bad syntax at 6
both PICK(1,2) -> bad syntax at 8
both INDIRECT() -> bad syntax at 9
both GATHER() -> bad syntax at 7
both LEN(1,2) -> bad syntax at 5
both UPPER(1,2) -> bad syntax at 7
both LINES(1,2) -> bad syntax at 7
both LINE(1,2,3) -> bad syntax at 8
both NOT(1,2) -> bad syntax at 5
both IF(1,2,3,4) -> bad syntax at 8
both PICK(1,2,3,4) -> bad syntax at 10
both INDIRECT(1,2) -> bad syntax at 10
both GATHER(1,2) -> bad syntax at 8
both SUM -> bad syntax at 3
both SUM( -> bad syntax at 4
both SUM(1 -> bad syntax at 5
both SUM(1, -> bad syntax at 6
both SUM(1,) -> bad syntax at 6
both SUM(,1) -> bad syntax at 4
both SUM(1,,2) -> bad syntax at 6
both SUM 1 -> bad syntax at 4
both SUM(1)2 -> bad syntax at 6
both SUM(1)) -> bad syntax at 6
both SUM(1)(2) -> bad syntax at 6
sheet SUM(A1:B2) -> SUM(A1:B2)
sheet SUM(B2:A1) -> SUM(A1:B2)
sheet SUM(A2:B1) -> SUM(A1:B2)
sheet sum(b1:a2) -> SUM(A1:B2)
sheet sum(b2:a1) -> SUM(A1:B2)
sheet SUM(A10:B9) -> SUM(A9:B10)
sheet SUM(AA1:Z2) -> SUM(Z1:AA2)
sheet SUM(A1:A1) -> SUM(A1:A1)
sheet MIN(1,A1:B2,"x") -> MIN(1,A1:B2,"x")
sheet MAX(A1:B2,C3) -> MAX(A1:B2,C3)
sheet COUNT(A1:B2,C1:D2) -> COUNT(A1:B2,C1:D2)
sheet CONCAT(A1:B2) -> CONCAT(A1:B2)
sheet AND(A1:B2) -> AND(A1:B2)
sheet OR(A1:B2) -> OR(A1:B2)
sheet LEN(SUM(A1:B2)) -> LEN(SUM(A1:B2))
sheet LEN(A1:B2) -> bad syntax at 6
sheet UPPER(A1:B2) -> bad syntax at 8
sheet LINES(A1:B2) -> bad syntax at 8
sheet LINE(A1:B2,1) -> bad syntax at 7
sheet NOT(A1:B2) -> bad syntax at 6
sheet IF(A1:B2,1) -> bad syntax at 5
sheet IF(1,A1:B2) -> bad syntax at 7
sheet PICK(A1:B2,1,2) -> bad syntax at 7
sheet INDIRECT(A1:B2) -> bad syntax at 11
sheet GATHER(A1:B2) -> bad syntax at 9
sheet A1:B2 -> bad syntax at 2
sheet (A1:B2) -> bad syntax at 3
sheet SUM((A1:B2)) -> bad syntax at 7
sheet SUM(-A1:B2) -> bad syntax at 7
sheet SUM(1+A1:B2) -> bad syntax at 8
sheet SUM(A1:B2+1) -> bad syntax at 9
sheet SUM(A1:B2:C3) -> bad syntax at 9
sheet SUM(A1:1) -> bad syntax at 7
sheet SUM(1:B2) -> bad syntax at 5
sheet SUM(A1:) -> bad syntax at 7
sheet SUM(A1: -> bad syntax at 7
sheet SUM(:B2) -> bad syntax at 4
sheet SUM(A1:(B2)) -> bad syntax at 7
sheet SUM(A1:B2 -> bad syntax at 9
sheet SUM(A1:A0) -> bad token at 7
rules SUM(a1:b2) -> bad syntax at 6
both 1+2&3=33 -> 1+2&3=33
both (1+2)&3=33 -> 1+2&3=33
both ((1+2)&3)=33 -> 1+2&3=33
both 1+(2&3)=33 -> 1+(2&3)=33
both 1+2&(3=33) -> 1+2&(3=33)
both 1&(2+3) -> 1&2+3
both (1&2)+3 -> (1&2)+3
both 2*3+4*5 -> 2*3+4*5
both (2*3)+(4*5) -> 2*3+4*5
both 2*(3+4)*5 -> 2*(3+4)*5
both 7-2-1 -> 7-2-1
both (7-2)-1 -> (7-2)-1
both 7-(2-1) -> 7-(2-1)
both 1=1=0 -> 1=1=0
both (1=1)=0 -> (1=1)=0
both 1<2=3>4 -> 1<2=3>4
both (1&2)&3 -> (1&2)&3
both (1&2)=(3&4) -> 1&2=3&4
both 1*(2/3) -> 1*(2 /3)
both 10/2/5 -> 10 /2 /5
both 1+2-3*4/5&6<=7 -> 1+2-3*4 /5&6<=7
both -2*3 -> -2*3
both (-2)*3 -> -2*3
both -(2*3) -> -(2*3)
both 7/-2 -> 7 /-2
both 7/(-2) -> 7 /-2
both --1 -> --1
both -(-1) -> --1
both -+1 -> -1
both +-1 -> -1
both +5 -> 5
both ++(+5) -> 5
both 1+-+-2 -> 1+--2
both -"a" -> -"a"
both -(SUM(1)) -> -SUM(1)
both (1) -> 1
both ((1)) -> 1
both SUM((1+2),(3)) -> SUM(1+2,3)
rules ( a + b ) * c -> (a+b)*c
rules a + (b * c) -> a+b*c
rules (a - b) - c -> (a-b)-c
rules a - b - c -> a-b-c
rules -(a + b) -> -(a+b)
rules + a -> a
both  -> bad syntax at 0
both 1 + -> bad syntax at 3
both - -> bad syntax at 1
both ( -> bad syntax at 1
both (1 -> bad syntax at 2
both (1+ -> bad syntax at 3
both ((1) -> bad syntax at 4
both () -> bad syntax at 1
both 1) -> bad syntax at 1
both ) -> bad syntax at 0
both , -> bad syntax at 0
both : -> bad syntax at 0
both 1,2 -> bad syntax at 1
both (1,2) -> bad syntax at 2
both *1 -> bad syntax at 0
both =1 -> bad syntax at 0
both <=1 -> bad syntax at 0
both 1*/2 -> bad syntax at 2
both 1&&2 -> bad syntax at 2
both 1 2 -> bad syntax at 2
both (1)(2) -> bad syntax at 3
both 2(1) -> bad syntax at 1
both ?+ -> bad token at 0
both 1 ? ? -> bad token at 2
both (1 2)? -> bad token at 5
sheet SUM(A1:ZZ9999) -> too many cells at 4
sheet COUNT( zz9999 : a1 ) -> too many cells at 7
sheet SUM(A1:ZZ9999)+ -> bad syntax at 15
sheet SUM(A1:ZZ9999)? -> bad token at 14
sheet SUM(A1:IV256) -> SUM(A1:IV256)
sheet SUM(A1:IV257) -> too many cells at 4
sheet SUM(A1:IV256,A1) -> SUM(A1:IV256,A1)
sheet SUM(A1:IV256,A1:A1) -> too many cells at 13
sheet SUM(A1:A1,A1:IV256) -> too many cells at 10
sheet SUM(A1:A9999,B1:G9999) -> too many cells at 13
sheet SUM(A1:IV128)+SUM(A129:IV256) -> SUM(A1:IV128)+SUM(A129:IV256)
sheet SUM(A1:IV128)+SUM(A1:IV129) -> too many cells at 18
sheet LEN(SUM(A1:ZZ9999)) -> too many cells at 8"#;

// A row is the kind of book, a text, and whether it is static, with its references.
const MENTIONED: &str = r#"both 1+2&"a" -> static
rules a -> static a
rules a+b*a -> static a b
rules b+a+b -> static b a
rules (c-b)&-a=c -> static c b a
rules a/b+a /b -> static a/b a b
rules IF(a, 1, 2) -> static a
rules IF(1,2,3) -> static
rules IF(a, b) -> changing a b
rules IF(a,1,b) -> changing a b
rules IF(a,1+-b,2) -> changing a b
rules IF(a,SUM(1,b),2) -> changing a b
rules IF(1, IF(a, 1), 2) -> changing a
rules IF(IF(a,1,2),3,4) -> static a
rules IF(IF(a,b,2),3,4) -> changing a b
rules SUM(1,IF(a,b))+c -> changing a b c
rules PICK(a, b, c) -> static a b c
rules INDIRECT("a") -> changing
rules GATHER(a) -> changing a
rules SUM(1,LEN(INDIRECT(a))) -> changing a
rules -(1+INDIRECT(a)) -> changing a
sheet a1+A1 -> static A1
sheet SUM(A1:B2)+A2+C1 -> static A1 B1 A2 B2 C1
sheet C1+SUM(B2:A1) -> static C1 A1 B1 A2 B2
sheet A2+SUM(A1:B2) -> static A2 A1 B1 B2
sheet SUM(A1:A3,A2:B3) -> static A1 A2 A3 B2 B3
sheet SUM(AA10:Z9) -> static Z9 AA9 Z10 AA10
sheet AND(A1:A1,A1) -> static A1
sheet IF(SUM(A1:A2),1) -> static A1 A2
sheet IF(A1,SUM(B1:B2)) -> changing A1 B1 B2
sheet PICK(A1,SUM(B1:B2),INDIRECT(C1)) -> changing A1 B1 B2 C1"#;

// Texts of formulas, where `both` stands for a kind.
#[derive(Drop)]
struct Grammar {
    both: Kind,
}

impl Told for Grammar {
    fn told(&self, alloc: Global, asked: &str) -> Result<String, NoMemory> {
        let (word, text) = asked.split_once(' ').unwrap_or(("", asked));
        printed(alloc, kind_of(word, self.both), text)
    }
}

fn kind_of(word: &str, both: Kind) -> Kind {
    match word {
        "rules" => Kind::Rules,
        "sheet" => Kind::Sheet,
        _ => both,
    }
}

// How a text is printed once it is read and copied, or which fault it has.
fn printed(alloc: Global, kind: Kind, text: &str) -> Result<String, NoMemory> {
    match read(alloc, kind, text) {
        Ok(expr) => print(alloc, &expr.copy(alloc)?),
        Err(fault) => Ok(format!(in alloc; "{fault}")?),
    }
}

#[test]
fn texts_of_the_grammar(rt: HostRuntime) -> Result<(), Fail> {
    for both in [Kind::Rules, Kind::Sheet] {
        let count = rows_hold(rt.alloc(), &Grammar { both }, TEXTS)?;
        assert_eq!(rt; count, 291);
    }
    Ok(())
}

// Whether formulas are static, and what they refer to.
#[derive(Drop)]
struct Mentions;

impl Told for Mentions {
    fn told(&self, alloc: Global, asked: &str) -> Result<String, NoMemory> {
        let (word, text) = asked.split_once(' ').unwrap_or(("", asked));
        let Ok(expr) = read(alloc, kind_of(word, Kind::Rules), text) else {
            return Err(NoMemory);
        };
        let word = if is_static(&expr) {
            "static"
        } else {
            "changing"
        };
        named(alloc, word, refs(alloc, &expr, Seeded::of(7))?.as_slice())
    }
}

#[test]
fn references(rt: HostRuntime) -> Result<(), Fail> {
    let count = rows_hold(rt.alloc(), &Mentions, MENTIONED)?;
    assert_eq!(rt; count, 31);
    Ok(())
}
