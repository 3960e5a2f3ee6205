//! A receipt with a QR code, white on black and upside down.

use super::Receipt;

pub const TAX_RECEIPT: Receipt = Receipt {
    // tax_receipt.hex
    stream: "\
1b61011d420120484152424f555220424f4f4b53200a1d4200313220486172626f7572205374726565740a1b61001b332841746c6173202020202020202020202032342e30300a50656e63696c7320202020202020202020332e35300a1b321b4701544f54414c202020202020202020202032372e35300a1b47005641542031302520202020202020202020322e35300a1b61011d286b03003143061d286b03003145311d286b270031503068747470733a2f2f7461782e6578616d706c652f723f6e3d3437313126743d32372e35301d286b03003151305363616e20746f20636865636b207468697320726563656970740a1b7b015468616e6b20796f750a1b7b001b64021d5601
",
    // tax_receipt.listing
    listing: "\
0 align 01
3 reverse 01
6 char 20
7 char 48
8 char 41
9 char 52
10 char 42
11 char 4f
12 char 55
13 char 52
14 char 20
15 char 42
16 char 4f
17 char 4f
18 char 4b
19 char 53
20 char 20
21 lf
22 reverse 00
25 char 31
26 char 32
27 char 20
28 char 48
29 char 61
30 char 72
31 char 62
32 char 6f
33 char 75
34 char 72
35 char 20
36 char 53
37 char 74
38 char 72
39 char 65
40 char 65
41 char 74
42 lf
43 align 00
46 spacing 28
49 char 41
50 char 74
51 char 6c
52 char 61
53 char 73
54 char 20
55 char 20
56 char 20
57 char 20
58 char 20
59 char 20
60 char 20
61 char 20
62 char 20
63 char 20
64 char 20
65 char 32
66 char 34
67 char 2e
68 char 30
69 char 30
70 lf
71 char 50
72 char 65
73 char 6e
74 char 63
75 char 69
76 char 6c
77 char 73
78 char 20
79 char 20
80 char 20
81 char 20
82 char 20
83 char 20
84 char 20
85 char 20
86 char 20
87 char 20
88 char 33
89 char 2e
90 char 35
91 char 30
92 lf
93 spacing default
95 strike 01
98 char 54
99 char 4f
100 char 54
101 char 41
102 char 4c
103 char 20
104 char 20
105 char 20
106 char 20
107 char 20
108 char 20
109 char 20
110 char 20
111 char 20
112 char 20
113 char 20
114 char 32
115 char 37
116 char 2e
117 char 35
118 char 30
119 lf
120 strike 00
123 char 56
124 char 41
125 char 54
126 char 20
127 char 31
128 char 30
129 char 25
130 char 20
131 char 20
132 char 20
133 char 20
134 char 20
135 char 20
136 char 20
137 char 20
138 char 20
139 char 20
140 char 32
141 char 2e
142 char 35
143 char 30
144 lf
145 align 01
148 qrsize 06
156 qrlevel 31
164 qrstore 68747470733a2f2f7461782e6578616d706c652f723f6e3d3437313126743d32372e3530
208 qrprint
216 char 53
217 char 63
218 char 61
219 char 6e
220 char 20
221 char 74
222 char 6f
223 char 20
224 char 63
225 char 68
226 char 65
227 char 63
228 char 6b
229 char 20
230 char 74
231 char 68
232 char 69
233 char 73
234 char 20
235 char 72
236 char 65
237 char 63
238 char 65
239 char 69
240 char 70
241 char 74
242 lf
243 upside 01
246 char 54
247 char 68
248 char 61
249 char 6e
250 char 6b
251 char 20
252 char 79
253 char 6f
254 char 75
255 lf
256 upside 00
259 feed 02
262 cut 01
end 265 pending 0
",
    // tax_receipt.paper
    paper: "\
row center [A,1,1,0,0,0,0,1,0] HARBOUR BOOKS 
feed 1
row center 12 Harbour Street
feed 1
row left Atlas           24.00
feed 1 spacing 40
row left Pencils          3.50
feed 1 spacing 40
row left [A,1,1,0,0,0,1,0,0]TOTAL           27.50
feed 1
row left VAT 10%          2.50
feed 1
qr center 2 6 M https://tax.example/r?n=4711&t=27.50
row center Scan to check this receipt
feed 1
row center upside Thank you
feed 1
feed 2
cut partial
",
};

// tax_receipt.json
pub const TAX_RECEIPT_JSON: &str = "\
[{\"align\":\"center\"},
 {\"reverse\":true},
 {\"line\":\" HARBOUR BOOKS \"},
 {\"reverse\":false},
 {\"line\":\"12 Harbour Street\"},
 {\"align\":\"left\"},
 {\"spacing\":40},
 {\"line\":\"Atlas           24.00\"},
 {\"line\":\"Pencils          3.50\"},
 {\"spacing\":\"default\"},
 {\"strike\":true},
 {\"line\":\"TOTAL           27.50\"},
 {\"strike\":false},
 {\"line\":\"VAT 10%          2.50\"},
 {\"align\":\"center\"},
 {\"qr\":{\"content\":\"https://tax.example/r?n=4711&t=27.50\",\"size\":6,\"level\":\"M\"}},
 {\"line\":\"Scan to check this receipt\"},
 {\"upside\":true},
 {\"line\":\"Thank you\"},
 {\"upside\":false},
 {\"feed\":2},
 {\"cut\":\"partial\"}]
";
