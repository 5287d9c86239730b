//! Lists of words, with a space between each two, and the commands that they make, worked out by a reader of the
//! rules in Python. A row is a line: the words, ` => `, and the command, or `none`. A word may be empty, so spaces count.

/// Words and their commands.
pub static COMMANDS: &str = "
// Which words are commands at all, and the plain words of `check` and `made`.
 => none
help => none
--help => none
-h => none
--version => none
find => none
check => none
made => none
Find --query q --fields f a => none
searches a => none
find --query q --fields f => none
find --query q --fields f a => find q f batch=256 hands=1 a
find --query q --fields f a b c => find q f batch=256 hands=1 a b c
check --query q --fields f => check q f
check --fields f --query q => check q f
check --query q => none
check --fields f => none
check --query q --fields f a => none
check --query q --fields f -- => check q f
check --query q --fields f -- a => none
check --query q --fields f --places => none
check --query q --fields f --slack 5s => none
check --query q --fields f --hands 1 => none
check --query q --query q --fields f => none
check --query=q --fields=f => check q f
check --query --fields f => none
check q f => none
made 0 => made 1 0
made 1000000 => made 1 1000000
made 1000001 => none
made 300000 => made 1 300000
made --hands 16 5 => made 16 5
made --hands 17 5 => none
made --hands=0 5 => made 0 5
made 5 --hands 2 => none
made 1 2 => none
made -- 7 => made 1 7
made -7 => none
made +7 => none
made 7.0 => none
made 0000007 => made 1 7
made 00000007 => none
made --batch 5 5 => none
made --query q 5 => none
made --places 5 => none
made --hands 2 --hands 2 5 => none
made x => none
made   => none
// Options: their order, both spellings, `--`, and names.
find --fields f --query q a => find q f batch=256 hands=1 a
find --query=q --fields=f a => find q f batch=256 hands=1 a
find --query=q --fields f a => find q f batch=256 hands=1 a
find --query q a --fields f => none
find a --query q --fields f => none
find a => none
find --query q --fields f --query q a => none
find --query q --fields f --query=q a => none
find --query q --fields f --batch 5 --batch 5 a => none
find --query q --fields f --places --places a => none
find --query q --fields f --places a => find q f batch=256 hands=1 places a
find --query q --fields f --places=x a => none
find --query q --fields f --places= a => none
find --places --query q --fields f a => find q f batch=256 hands=1 places a
find --query q --fields f --tiebreaker t a => find q f tie=t batch=256 hands=1 a
find --query q --fields f --tiebreaker=t a => find q f tie=t batch=256 hands=1 a
find --query q --fields f --tiebreaker a => none
find --query q --fields f --tiebreaker= a => none
find --query q --fields f --tiebreaker - a => none
find --query q --fields f --tiebreaker=- a => none
find --query q --fields f --tiebreaker=-t a => find q f tie=-t batch=256 hands=1 a
find --query q --fields f --tiebreaker event.sequence a => find q f tie=event.sequence batch=256 hands=1 a
find --query q --fields f --help a => none
find --query q --fields f -- a => find q f batch=256 hands=1 a
find --query q --fields f -- -a => find q f batch=256 hands=1 -a
find --query q --fields f -- -- => find q f batch=256 hands=1 --
find --query q --fields f -- a -- => find q f batch=256 hands=1 a --
find --query q --fields f -- => none
find --query q --fields f a -- => none
find --query q --fields f a -- b => none
find --query q --fields f a -b => none
find --query q --fields f a --places => none
find --query q --fields f - a => none
find --query q --fields f a - => none
find --query q --fields f -- - => none
find --query q --fields f -- a - => none
find --query q --fields f -- --places => find q f batch=256 hands=1 --places
find --query q --fields f -- --query q => find q f batch=256 hands=1 --query q
find --query q --fields f --nosuch 5 a => none
find --query q --fields f --nosuch=5 a => none
find --query q --fields f -places a => none
find --query q --fields f --Places a => none
find --query q --fields f --place a => none
find --query q --fields f --quer=q a => none
find --query q --fields f = a => find q f batch=256 hands=1 = a
find --query q --fields f --= a => none
find --query q --fields f --=x a => none
find --query q --fields f --batch=5=5 a => none
find --query=a=b --fields f a => find a=b f batch=256 hands=1 a
find --query==q --fields f a => find =q f batch=256 hands=1 a
find --query a=b --fields f a => find a=b f batch=256 hands=1 a
find --query --fields f a => none
find --query -q --fields f a => none
find --query=-q --fields f a => find -q f batch=256 hands=1 a
find --query= --fields f a => none
find --query=- --fields f a => none
find --query - --fields f a => none
find --query q --fields= a => none
find --query -- --fields f a => none
find --query=-- --fields f a => find -- f batch=256 hands=1 a
find -- --query q --fields f a => none
find --query q --fields => none
find --query q --fields -- a => none
find --query q -- --fields f a => none
find --query q --fields f  a => none
find --query q --fields f a  => none
find --query q --fields f --  => none
-- find --query q --fields f a => none
--query q --fields f find a => none
// Numbers, times, and what goes together.
find --query q --fields f --batch 1 a => find q f batch=1 hands=1 a
find --query q --fields f --batch 4096 a => find q f batch=4096 hands=1 a
find --query q --fields f --batch 4097 a => none
find --query q --fields f --batch 0 a => none
find --query q --fields f --batch 0004096 a => find q f batch=4096 hands=1 a
find --query q --fields f --batch 00004096 a => none
find --query q --fields f --batch -1 a => none
find --query q --fields f --batch +1 a => none
find --query q --fields f --batch 1.0 a => none
find --query q --fields f --batch 1e3 a => none
find --query q --fields f --batch x a => none
find --query q --fields f --batch ٣ a => none
find --query q --fields f --batch 1_0 a => none
find --query q --fields f --batch 0x10 a => none
find --query q --fields f --batch= a => none
find --query q --fields f --batch a => none
find --query q --fields f --batch => none
find --query q --fields f --hands 0 a => find q f batch=256 hands=0 a
find --query q --fields f --hands 16 a => find q f batch=256 hands=16 a
find --query q --fields f --hands 17 a => none
find --query q --fields f --hands 016 a => find q f batch=256 hands=16 a
find --query q --fields f --hands 00000016 a => none
find --query q --fields f --hands -1 a => none
find --query q --fields f --slack 0ms a => find q f slack=0 batch=256 hands=1 a
find --query q --fields f --slack 5s a => find q f slack=5000 batch=256 hands=1 a
find --query q --fields f --slack 1m a => find q f slack=60000 batch=256 hands=1 a
find --query q --fields f --slack 2h a => find q f slack=7200000 batch=256 hands=1 a
find --query q --fields f --slack 3d a => find q f slack=259200000 batch=256 hands=1 a
find --query q --fields f --slack 36500d a => find q f slack=3153600000000 batch=256 hands=1 a
find --query q --fields f --slack 36501d a => none
find --query q --fields f --slack 876000h a => find q f slack=3153600000000 batch=256 hands=1 a
find --query q --fields f --slack 876001h a => none
find --query q --fields f --slack 9999999999ms a => find q f slack=9999999999 batch=256 hands=1 a
find --query q --fields f --slack 09999999999ms a => none
find --query q --fields f --slack 0000000005s a => find q f slack=5000 batch=256 hands=1 a
find --query q --fields f --slack 3153600000s a => find q f slack=3153600000000 batch=256 hands=1 a
find --query q --fields f --slack 3153600001s a => none
find --query q --fields f --slack 5 a => none
find --query q --fields f --slack ms a => none
find --query q --fields f --slack s a => none
find --query q --fields f --slack 5S a => none
find --query q --fields f --slack 5sec a => none
find --query q --fields f --slack 5 s a => none
find --query q --fields f --slack -5s a => none
find --query q --fields f --slack +5s a => none
find --query q --fields f --slack 1.5s a => none
find --query q --fields f --slack 5us a => none
find --query q --fields f --slack 5ns a => none
find --query q --fields f --slack 5w a => none
find --query q --fields f --slack 5mss a => none
find --query q --fields f --slack 5sm a => none
find --query q --fields f --slack m5 a => none
find --query q --fields f --slack 0d a => find q f slack=0 batch=256 hands=1 a
find --query q --fields f --slack=5s a => find q f slack=5000 batch=256 hands=1 a
find --query q --fields f --slack=-1s a => none
find --query q --fields f --slack= a => none
find --query q --fields f --slack=0s a => find q f slack=0 batch=256 hands=1 a
find --query q --fields f --slack=52560000m a => find q f slack=3153600000000 batch=256 hands=1 a
find --query q --fields f --slack=52560001m a => none
find --query q --fields f --slack 5s --checkpoint c --every 5 a => find q f slack=5000 batch=256 hands=1 at=c/5 a
find --query q --fields f --every 5 --checkpoint c --slack 5s a => find q f slack=5000 batch=256 hands=1 at=c/5 a
find --query q --fields f --checkpoint=c --every=5 --slack=0ms a => find q f slack=0 batch=256 hands=1 at=c/5 a
find --query q --fields f --checkpoint c --every 5 a => none
find --query q --fields f --slack 5s --checkpoint c a => none
find --query q --fields f --slack 5s --every 5 a => none
find --query q --fields f --every 5 a => none
find --query q --fields f --slack 5s --checkpoint c --every 0 a => none
find --query q --fields f --slack 5s --checkpoint c --every 1 a => find q f slack=5000 batch=256 hands=1 at=c/1 a
find --query q --fields f --slack 5s --checkpoint c --every 1000000 a => find q f slack=5000 batch=256 hands=1 at=c/1000000 a
find --query q --fields f --slack 5s --checkpoint c --every 1000001 a => none
find --query q --fields f --slack 5s --checkpoint - --every 5 a => none
find --query q --fields f --slack 5s --checkpoint= --every 5 a => none
find --query q --fields f --slack 5s --checkpoint=-c --every 5 a => find q f slack=5000 batch=256 hands=1 at=-c/5 a
find --query q --fields f --slack 5s --checkpoint c --checkpoint c --every 5 a => none
find --places --slack 0ms --batch 7 --hands 3 --checkpoint c --every 5 --tiebreaker t --query q --fields f a b => find q f tie=t slack=0 batch=7 hands=3 at=c/5 places a b
find --query q --fields f --slack 5s --batch 1 --hands 0 s0 s1 => find q f slack=5000 batch=1 hands=0 s0 s1";
