// A row is `read` and a text with the printed form of what it reads as; `quote` and a text; or `spell` and a value, or `bad` and a bad one, with its printed
// form, its spelling and its digest. Spellings are written out by hand, digests are Python's hashlib's.
pub(crate) const VALUES: &str =
    r##"spell empty -> empty 00 6e340b9cffb37a989ca544e6bb780a2c78901d3fb33738768511a30617afa01d
spell 60 -> 60 01000000000000003c b123d98360d2b8cef47791356cf497665c3e145b18ef8644fc802e04eb4df487
spell -1 -> -1 01ffffffffffffffff 1272f520cf7ca5cf117a0b5a3116518371bf20fb7fac043ac1be568b8c55b96c
spell -9223372036854775808 -> -9223372036854775808 018000000000000000 9fc5e4a78f91874c987ef4df4c6a88c067c8504eae19adfdff795855a9a66650
spell +9223372036854775807 -> 9223372036854775807 017fffffffffffffff 527efe1b2efccdb6def0384bee99d139043a8132e00068dc1707de3a22a113fc
spell "" -> "" 0200000000 395c2f5598a1643a205154c6f4c46ce36895b28e6c35660a95e5c6fd5ef9aeab
spell "ab" -> "ab" 02000000026162 9b1113f22629b33a18a24432b991d2a8241eec2f61d1ae05896f80cd1e5f5317
spell "é\n\"" -> "é\n\"" 0200000004c3a90a22 f8ffbcb4bcb26b4bbe6dd37821e22c07c53c68b4d49680dc1e10cd753850f21a
bad #DIV/0! -> #DIV/0! 0301 67294d0eff78c6dbf4ae91576d495f81ca8f9967119cff318132f79d41285dfc
bad #VALUE! -> #VALUE! 0302 d4ea3fc5537ce615543ea44f074bff451fb6c9749e9e8692c111f7070b4780c7
bad #REF! -> #REF! 0303 8655173af1ec080de2dae0c6d0a7a2da5ade8b2cf8117645da18b90aaefd0ee2
bad #NUM! -> #NUM! 0304 0ce3940bebf2b22a5d2108ecf0c368a0541c7e3c45703f8540921b4eafc82947
bad #LEN! -> #LEN! 0305 67df21b268fabeed13b2f2e4cf69906b8f4df1c3af6602263347ee894f875f93
read empty -> empty
read +007 -> 7
read -0 -> 0
read -12 -> -12
read "a\\\"\n\r\tz" -> "a\\\"\n\r\tz"
read Empty -> none
read  -> none
read + -> none
read - -> none
read +-1 -> none
read 1  -> none
read 9223372036854775808 -> none
read -9223372036854775809 -> none
read " -> none
read "a -> none
read "a"b" -> none
read "\x" -> none
read "\" -> none
read #REF! -> none
quote b"0 -> "b\"0""##;

// A row is `rules`, `sheet` or `exact` and a text, with the name that it is or the place of what is wrong; `area` and two corners, with its sides, its
// size and, where they are few, its names.
pub(crate) const NAMES: &str = "rules a.b/c_9 -> a.b/c_9
rules abcdefghijklmnopqrstuvwxyz_abcdefghijklmnopqrstuvwxyz0123456789a -> abcdefghijklmnopqrstuvwxyz_abcdefghijklmnopqrstuvwxyz0123456789a
rules abcdefghijklmnopqrstuvwxyz_abcdefghijklmnopqrstuvwxyz0123456789aa -> bad 64
rules  -> bad 0
rules A1 -> bad 0
rules 1a -> bad 0
rules aB -> bad 1
rules ab c -> bad 2
sheet a1 -> A1
sheet zZ9999 -> ZZ9999
sheet  -> bad 0
sheet 7 -> bad 0
sheet é1 -> bad 0
sheet B -> bad 1
sheet b0 -> bad 1
sheet B01 -> bad 1
sheet AB -> bad 2
sheet ABC1 -> bad 2
sheet B2c -> bad 2
sheet A10000 -> bad 5
exact a.b/c_9 -> a.b/c_9
exact ZZ9999 -> ZZ9999
exact  -> bad 0
exact é -> bad 0
exact aB -> bad 1
exact Ab1 -> bad 1
exact A1b -> bad 2
exact AB0 -> bad 2
area A1 a1 -> none
area a1 ZZ9999 -> 1 1 702 9999 7019298
area C2 B4 -> 2 2 3 4 6 B2 C2 B3 C3 B4 C4
area AA1 Z1 -> 26 1 27 1 2 Z1 AA1
area ZZ9999 ZZ9999 -> 702 9999 702 9999 1 ZZ9999";
