//! The receipts of the folder `examples` at the top of the repository, through the jobs.
//!
//! A test can't read a file, so each text stands here too; the comment before it names its file. The script `examples/compare`
//! compares the files with what the built program prints.

use escpos_io::MemoryIn;
use escpos_job_parts::status::Status;
use escpos_test_jobs::{check_task, encode_task, performs, render_task};

mod tax_receipt;

use tax_receipt::{TAX_RECEIPT, TAX_RECEIPT_JSON};

// A receipt: the stream in hexadecimal, its listing, and its paper as text.
#[derive(Drop)]
struct Receipt {
    stream: &'static str,
    listing: &'static str,
    paper: &'static str,
}

const COFFEE_BAR: Receipt = Receipt {
    // coffee_bar.hex
    stream: "\
1B 40
1B 61 01
1B 45 01 43 41 46 45 20 4F 4B 4F 1B 45 00 0A
31 32 20 48 61 72 62 6F 75 72 20 53 74 72 65 65 74 0A
1B 64 01
1B 61 00
32 20 45 73 70 72 65 73 73 6F 20 20 20 20 34 2E 38 30 0A
31 20 41 70 70 6C 65 20 63 61 6B 65 20 20 33 2E 32 30 0A
1D 21 11 54 4F 54 41 4C 20 1B 74 13 D5 1B 74 00 38 2E 30 30 1D 21 00 0A
1B 64 03
1D 56 42 00
",
    // coffee_bar.listing
    listing: "\
0 init
2 align 01
5 emphasis 01
8 char 43
9 char 41
10 char 46
11 char 45
12 char 20
13 char 4f
14 char 4b
15 char 4f
16 emphasis 00
19 lf
20 char 31
21 char 32
22 char 20
23 char 48
24 char 61
25 char 72
26 char 62
27 char 6f
28 char 75
29 char 72
30 char 20
31 char 53
32 char 74
33 char 72
34 char 65
35 char 65
36 char 74
37 lf
38 feed 01
41 align 00
44 char 32
45 char 20
46 char 45
47 char 73
48 char 70
49 char 72
50 char 65
51 char 73
52 char 73
53 char 6f
54 char 20
55 char 20
56 char 20
57 char 20
58 char 34
59 char 2e
60 char 38
61 char 30
62 lf
63 char 31
64 char 20
65 char 41
66 char 70
67 char 70
68 char 6c
69 char 65
70 char 20
71 char 63
72 char 61
73 char 6b
74 char 65
75 char 20
76 char 20
77 char 33
78 char 2e
79 char 32
80 char 30
81 lf
82 size 11
85 char 54
86 char 4f
87 char 54
88 char 41
89 char 4c
90 char 20
91 table 13
94 char d5
95 table 00
98 char 38
99 char 2e
100 char 30
101 char 30
102 size 00
105 lf
106 feed 03
109 cut 42 00
end 113 pending 0
",
    // coffee_bar.paper
    paper: "\
row center [A,1,1,1,0,0]CAFE OKO
feed 1
row center 12 Harbour Street
feed 1
feed 1
row left 2 Espresso    4.80
feed 1
row left 1 Apple cake  3.20
feed 1
row left [A,2,2,0,0,0]TOTAL [A,2,2,0,0,19]\\d5[A,2,2,0,0,0]8.00
feed 1
feed 3
cut partial 0
",
};

const KIOSK_TICKET: Receipt = Receipt {
    // kiosk_ticket.hex
    stream: "\
1B 40
1B 61 31
1D 21 33 41 30 34 37 0A
1D 21 00
1B 4D 01
50 6C 65 61 73 65 20 77 61 69 74 20 68 65 72 65 2E 20
59 6F 75 72 20 6E 75 6D 62 65 72 20 69 73 20 73 68 6F 77 6E 20 61 62 6F 76 65 20 74 68 65 20 63 6F 75 6E 74 65 72 20
77 68 65 6E 20 69 74 20 69 73 20 79 6F 75 72 20 74 75 72 6E 2E 0A
1B 4D 00
1B 64 02
1D 56 01
1D 28 48 06 00 30 30 30 30 33 46
",
    // kiosk_ticket.listing
    listing: "\
0 init
2 align 31
5 size 33
8 char 41
9 char 30
10 char 34
11 char 37
12 lf
13 size 00
16 font 01
19 char 50
20 char 6c
21 char 65
22 char 61
23 char 73
24 char 65
25 char 20
26 char 77
27 char 61
28 char 69
29 char 74
30 char 20
31 char 68
32 char 65
33 char 72
34 char 65
35 char 2e
36 char 20
37 char 59
38 char 6f
39 char 75
40 char 72
41 char 20
42 char 6e
43 char 75
44 char 6d
45 char 62
46 char 65
47 char 72
48 char 20
49 char 69
50 char 73
51 char 20
52 char 73
53 char 68
54 char 6f
55 char 77
56 char 6e
57 char 20
58 char 61
59 char 62
60 char 6f
61 char 76
62 char 65
63 char 20
64 char 74
65 char 68
66 char 65
67 char 20
68 char 63
69 char 6f
70 char 75
71 char 6e
72 char 74
73 char 65
74 char 72
75 char 20
76 char 77
77 char 68
78 char 65
79 char 6e
80 char 20
81 char 69
82 char 74
83 char 20
84 char 69
85 char 73
86 char 20
87 char 79
88 char 6f
89 char 75
90 char 72
91 char 20
92 char 74
93 char 75
94 char 72
95 char 6e
96 char 2e
97 lf
98 font 00
101 feed 02
104 cut 01
107 mark 003F
end 118 pending 0
",
    // kiosk_ticket.paper
    paper: "\
row center [A,4,4,0,0,0]A047
feed 1
row center [B,1,1,0,0,0]Please wait here. Your number is shown above the counter
feed 1
row center [B,1,1,0,0,0] when it is your turn.
feed 1
feed 2
cut partial
",
};

const KITCHEN_ORDER: Receipt = Receipt {
    // kitchen_order.hex
    stream: "\
1B 40
1D 21 11 54 61 62 6C 65 20 31 32 0D 0A
1D 21 00
1B 2D 01 4B 69 74 63 68 65 6E 1B 2D 00 0D 0A
1B 21 38 32 20 53 74 65 61 6B 1B 21 00 0D 0A
20 20 6D 65 64 69 75 6D 2C 20 1B 2D 32 6E 6F 20 6E 75 74 73 1B 2D 30 0D 0A
31 20 53 6F 75 70 20 5B 52 55 53 48 5D 0D 0A
1B 64 04
1D 56 41 10
",
    // kitchen_order.listing
    listing: "\
0 init
2 size 11
5 char 54
6 char 61
7 char 62
8 char 6c
9 char 65
10 char 20
11 char 31
12 char 32
13 cr
14 lf
15 size 00
18 underline 01
21 char 4b
22 char 69
23 char 74
24 char 63
25 char 68
26 char 65
27 char 6e
28 underline 00
31 cr
32 lf
33 mode 38
36 char 32
37 char 20
38 char 53
39 char 74
40 char 65
41 char 61
42 char 6b
43 mode 00
46 cr
47 lf
48 char 20
49 char 20
50 char 6d
51 char 65
52 char 64
53 char 69
54 char 75
55 char 6d
56 char 2c
57 char 20
58 underline 32
61 char 6e
62 char 6f
63 char 20
64 char 6e
65 char 75
66 char 74
67 char 73
68 underline 30
71 cr
72 lf
73 char 31
74 char 20
75 char 53
76 char 6f
77 char 75
78 char 70
79 char 20
80 char 5b
81 char 52
82 char 55
83 char 53
84 char 48
85 char 5d
86 cr
87 lf
88 feed 04
91 cut 41 10
end 95 pending 0
",
    // kitchen_order.paper
    paper: "\
row left [A,2,2,0,0,0]Table 12
feed 1
row left [A,1,1,0,1,0]Kitchen
feed 1
row left [A,2,2,1,0,0]2 Steak
feed 1
row left   medium, [A,1,1,0,2,0]no nuts
feed 1
row left 1 Soup \\5bRUSH]
feed 1
feed 4
cut full 16
",
};

const GATE_TICKET: Receipt = Receipt {
    // gate_ticket.hex
    stream: "\
1b61011d763003020004000ff0300c300c0ff01b45014741544520370a1b4500526f772031322c207365617420340a1d683c1d48021d6b4407353531323334351b64021d5601
",
    // gate_ticket.listing
    listing: "\
0 align 01
3 raster 03 2 4
19 emphasis 01
22 char 47
23 char 41
24 char 54
25 char 45
26 char 20
27 char 37
28 lf
29 emphasis 00
32 char 52
33 char 6f
34 char 77
35 char 20
36 char 31
37 char 32
38 char 2c
39 char 20
40 char 73
41 char 65
42 char 61
43 char 74
44 char 20
45 char 34
46 lf
47 barheight 3c
50 hriplace 02
53 bars 44 35353132333435
64 feed 02
67 cut 01
end 70 pending 0
",
    // gate_ticket.paper
    paper: "\
raster center both 2 4 0ff0300c300c0ff0
row center [A,1,1,1,0,0]GATE 7
feed 1
row center Row 12, seat 4
feed 1
bars center ean8 60 3 below A 55123457
feed 2
cut partial
",
};

// gate_ticket.json
const GATE_TICKET_JSON: &str = "\
[{\"align\":\"center\"},
 {\"raster\":{\"scale\":\"both\",\"x\":2,\"y\":4,\"dots\":\"0ff0300c300c0ff0\"}},
 {\"bold\":true},
 {\"line\":\"GATE 7\"},
 {\"bold\":false},
 {\"line\":\"Row 12, seat 4\"},
 {\"bar_height\":60},
 {\"hri\":\"below\"},
 {\"bars\":{\"kind\":\"ean8\",\"content\":\"5512345\"}},
 {\"feed\":2},
 {\"cut\":\"partial\"}]
";

#[test]
fn receipts_are_listed_and_printed(rt: HostRuntime) {
    let mut room = [0; 4096];
    for receipt in [
        COFFEE_BAR,
        KIOSK_TICKET,
        KITCHEN_ORDER,
        GATE_TICKET,
        TAX_RECEIPT,
    ] {
        for (task, output) in [
            (check_task(), receipt.listing),
            (render_task(), receipt.paper),
        ] {
            let mut source = MemoryIn::new(receipt.stream.as_bytes(), 64);
            let wanted = (output.as_bytes(), Status::Good);
            assert!(&rt; performs(rt.alloc(), Ok(task), &mut source, &mut room, wanted));
        }
    }
}

#[test]
fn receipts_in_json_give_their_streams(rt: HostRuntime) {
    for (text, receipt) in [
        (GATE_TICKET_JSON, GATE_TICKET),
        (TAX_RECEIPT_JSON, TAX_RECEIPT),
    ] {
        let mut source = MemoryIn::new(text.as_bytes(), 64);
        let wanted = (receipt.stream.as_bytes(), Status::Good);
        let task = Ok(encode_task());
        assert!(&rt; performs(rt.alloc(), task, &mut source, &mut [0; 1024], wanted));
    }
}
