//! Packets that are tossed: one that fills a board to its last byte, and ones as long as a packet may be.

/// A packet of five messages, each of which takes 137 bytes and its body, on the board of `FILLED`, where 2,906 bytes are
/// free. The bodies have 2,770, 1,000, 1,633, 1,632 and no bytes.
pub const TOSSED: &str = r#"* add five.pkt 18 \0
* add five.pkt 1 \x02
* add five.pkt 39 \0
* put front \x02
* add front 33 \0
* add front 1 Ann\0Joe\0\0AREA:C7\r
* join five.pkt 1 front
* add five.pkt 2769 x
* add five.pkt 1 \r\0
* join five.pkt 1 front
* add five.pkt 999 x
* add five.pkt 1 \r\0
* join five.pkt 1 front
* add five.pkt 1632 x
* add five.pkt 1 \r\0
* join five.pkt 1 front
* add five.pkt 1631 x
* add five.pkt 1 \r\0
* join five.pkt 1 front
* add five.pkt 1 \0
* put lines toss five.pkt\ntoss five.pkt\ncheck\n
> batch lines
1 refused full
2 posted 7 311
3 refused full
4 posted 7 312
5 refused full
posted 2 refused 3
1 refused full
2 refused full
3 refused full
4 refused full
5 refused full
posted 0 refused 5
board FULL
[[0 6 # C#: 255 slots, 255 live
]]7 C7: 312 slots, 312 live
0 users, 0 uploads, 34603008 bytes
"#;

/// Three packets. The first has as many messages as fit, each with a body of 84 bytes, and a conference takes 9,999 of
/// them. The second has 255 messages with bodies as long as they may be. Of the third no message is taken. A message of
/// the first takes 225 bytes and the digits of its number, one of the second 16,525 and these.
pub const MOST: &str = r#"
* put setup board: Most\ncity: Springfield\nphone: 555-0100\nsysop: Sam Sysop\nbbsid: MOST\nserial: 1\nzones:\nconference: 0 echo - C0\nconference: 1 echo - C1\n
* add header 18 \0
* add header 1 \x02
* add header 39 \0
* put front \x02
* add front 33 \0
* add front 1 Ann\0Joe\0\0
* join said 1 front
* add said 1 AREA:C0\r
* add said 83 x
* add said 1 \r\0
* join most 1 header
* join most 30840 said
* add most 6 \0
* length most 4194304
* join long 1 front
* add long 1 AREA:C1\r
* add long 16383 x
* add long 1 \r\0
* join longest 1 header
* join longest 255 long
* add longest 2 \0
* join stray 1 front
* add stray 1 AREA:C2\r
* add stray 83 x
* add stray 1 \r\0
* join strays 1 header
* join strays 30840 stray
* add strays 6 \0
* put lines init setup\ntoss most\ntoss longest\ntoss strays\ntoss most\ncheck\n
> batch lines
made 2 conferences
[[1 9999 # posted 0 #
]][[10000 30840 # refused full
]]posted 9999 refused 20841
[[1 255 # posted 1 #
]]posted 255 refused 0
[[1 30840 # refused area
]]posted 0 refused 30840
[[1 30840 # refused full
]]posted 0 refused 30840
board MOST
0 C0: 9999 slots, 9999 live
1 C1: 255 slots, 255 live
0 users, 0 uploads, 6433552 bytes
* add most 1 \0
> toss most
refused toolarge most
"#;
