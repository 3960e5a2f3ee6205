//! The texts of usage, version and help; the help has the lines of the table of settings between its two texts.

/// The text for arguments that ask for the version: that of the program, and the profile of commands that it knows.
pub const VERSION: &str = "escpos_cli 1.4.0, profile 4\n";

/// The text for arguments that name no task.
pub const USAGE: &str = "\
usage: escpos_cli check [--raw] [--pass] < STREAM
       escpos_cli render [--raw] [--pass] [--width D] [--text] < STREAM
       escpos_cli draw [--raw] [--pass] [--width D] < STREAM
       escpos_cli encode [--raw] [--width D] [--replace C] < RECEIPT
       escpos_cli image [--width D] [--threshold T] < PICTURE
       escpos_cli play < SCRIPT
       escpos_cli emulate ADDRESS [--links N | --follow] [--condition CNP]
                                  [--condition-file PATH] [--width D]
       escpos_cli send ADDRESS --first F [--openings N] [--wait S]
                               [--width D] [--replace C] < RECEIPT
       escpos_cli status ADDRESS [--wait S]
       escpos_cli probe ADDRESS [--wait S]
       escpos_cli loop [--width D] < RECEIPT
       escpos_cli queue LEDGER [--width D] [--raw | --replace C] [--key K]
                               < RECEIPT
       escpos_cli queue LEDGER --again N
       escpos_cli deliver LEDGER ADDRESS [--openings N] [--copy TEXT]
                                         [--wait S] [--patience P]
       escpos_cli cancel LEDGER N
       escpos_cli ledger LEDGER [--first F | --renew NEW]
       escpos_cli completions bash|zsh|fish
       escpos_cli help
       escpos_cli --version
";

/// The text for arguments that ask for help, up to the lines that `settings` prints.
pub const HELP_START: &str = "\
escpos_cli shows what an ESC/POS byte stream says to a receipt printer, or the
exact byte at which the stream is refused, and writes the stream of a receipt.
Over TCP it is a printer, or sends a receipt to one and learns that it is
printed. A till's receipts wait in a ledger, a file, until they are printed.

`check`, `render` and `draw` read the stream from standard input: with `--raw`
all of its bytes as they are, otherwise hexadecimal digits of either case;
spaces, tabs and line ends between these are ignored. Input of more
than 16777216 bytes gives the one line `refused input`; without `--raw` any
other that isn't hexadecimal gives `refused hex`: bytes want `--raw`. A last
line `memory` says that the program ran out of memory.

With `--pass` these three pass over each command that the Reference has and that
means nothing here, and go on after it. `render` says `passed N` before its last
line and `draw` says it under the paper: so many were passed over, and the paper
of a printer that knows them may differ.

  escpos_cli check [--raw] [--pass]
      Lists the commands. Each gives one line: the number of bytes before it,
      its name, and what it carries. The last line is `end N pending P`, where N
      bytes were read and the last P of them are a command that isn't complete,
      or `fault K NUMBER NAME`, where the byte at place K is refused. A barcode
      with a wrong check digit is followed by a line `note`, and so is a command
      in whose data stand the bytes of a real-time command.

      Taken are characters and the commands that the table below says; any other
      command is refused at its exact byte. One that is passed over is listed as
      `PLACE passed NAME`, with its bytes after those that the name stands for.

          $ escpos_cli check --raw < capture.bin
          $ echo '1B 40 48 69 0A 1D 56 00' | escpos_cli check
          0 init
          2 char 48
          3 char 69
          4 lf
          5 cut 00
          end 8 pending 0
          $ echo '1B 42 02 04 48' | escpos_cli check --pass
          0 passed ESC B 02 04
          4 char 48
          end 5 pending 0

      The commands of Epson's Reference by their first bytes, hexadecimal. What
      is taken may still be refused at a parameter that it doesn't have; a byte
      that isn't here is refused, too, below 20, or after 10, 1B, 1B 63, 1C, 1D,
      1D 28, 1D 38 or 1D 76.

          09        HT      taken
          0A        LF      taken
          0C        FF      refused: page mode
          0D        CR      taken
          10 04     DLE EOT taken
          10 05     DLE ENQ refused: done ahead of its place in the stream
          10 14     DLE DC4 refused: done ahead of its place in the stream
          18        CAN     refused: page mode
          1B 0C     ESC FF  refused: page mode
          1B 24     ESC $   taken
          1B 25     ESC %   refused: characters that the host defines
          1B 26     ESC &   refused: characters that the host defines
          1B 28     ESC (   refused: the buzzer
          1B 2A     ESC *   refused: an image in another form than GS v 0
          1B 2B     ESC +   refused: of few printers
          1B 3F     ESC ?   refused: characters that the host defines
          1B 40     ESC @   taken
          1B 41     ESC A   refused: of few printers
          1B 42     ESC B   refused: a buzzer
          1B 44     ESC D   taken
          1B 4A     ESC J   taken
          1B 4B     ESC K   refused: feeds backwards
          1B 4C     ESC L   refused: page mode
          1B 51     ESC Q   refused: of few printers
          1B 53     ESC S   refused: page mode
          1B 54     ESC T   refused: page mode
          1B 57     ESC W   refused: page mode
          1B 5C     ESC \\   taken
          1B 63 30  ESC c 0 refused: of few printers
          1B 63 31  ESC c 1 refused: of few printers
          1B 64     ESC d   taken
          1B 65     ESC e   refused: feeds backwards
          1B 66     ESC f   refused: of few printers
          1B 69     ESC i   taken
          1B 6C     ESC l   refused: of few printers
          1B 6D     ESC m   taken
          1B 70     ESC p   taken
          1B 71     ESC q   refused: of few printers
          1B 75     ESC u   refused: a status request; DLE EOT is taken
          1B 76     ESC v   refused: a status request; DLE EOT is taken
          1C 21     FS !    refused: Kanji characters
          1C 26     FS &    refused: Kanji characters
          1C 28     FS (    refused: Kanji characters, images that are kept
          1C 2D     FS -    refused: Kanji characters
          1C 32     FS 2    refused: Kanji characters
          1C 3F     FS ?    refused: Kanji characters
          1C 43     FS C    refused: Kanji characters
          1C 53     FS S    refused: Kanji characters
          1C 57     FS W    refused: Kanji characters
          1C 61     FS a    refused: of few printers
          1C 62     FS b    refused: of few printers
          1C 67     FS g    refused: memory of the machine
          1C 70     FS p    refused: images that the machine keeps
          1C 71     FS q    refused: images that the machine keeps
          1D 0C     GS FF   refused: label paper
          1D 24     GS $    refused: page mode
          1D 28 41  GS ( A  refused: a test print of the machine
          1D 28 42  GS ( B  refused: of few printers
          1D 28 43  GS ( C  refused: memory of the machine
          1D 28 44  GS ( D  refused: settings of the machine
          1D 28 45  GS ( E  refused: settings of the machine
          1D 28 46  GS ( F  refused: label paper
          1D 28 47  GS ( G  refused: of few printers
          1D 28 48  GS ( H  taken: function 48
          1D 28 4B  GS ( K  refused: settings of the machine
          1D 28 4C  GS ( L  taken: images to be stored, functions 112 and 50
          1D 28 4D  GS ( M  refused: settings of the machine
          1D 28 4E  GS ( N  refused: effects on characters
          1D 28 50  GS ( P  refused: page mode
          1D 28 51  GS ( Q  refused: page mode
          1D 28 6B  GS ( k  taken: QR codes: functions 65, 67, 69, 80 and 81
          1D 2A     GS *    refused: an image in another form than GS v 0
          1D 2F     GS /    refused: an image in another form than GS v 0
          1D 38     GS 8 L  taken: images to be stored, function 112
          1D 3A     GS :    refused: macros
          1D 3C     GS <    refused: label paper
          1D 43     GS C    refused: counters of the machine
          1D 44     GS D    refused: images that the machine keeps
          1D 49     GS I    refused: an answer that the line has no use for
          1D 4C     GS L    taken
          1D 50     GS P    refused: other motion units
          1D 51     GS Q    refused: an image in another form than GS v 0
          1D 54     GS T    refused: goes to the line's beginning
          1D 56     GS V    taken
          1D 57     GS W    taken
          1D 5C     GS \\    refused: page mode
          1D 5E     GS ^    refused: macros
          1D 61     GS a    taken
          1D 63     GS c    refused: counters of the machine
          1D 67     GS g    refused: counters of the machine
          1D 6A     GS j    refused: of few printers
          1D 6B     GS k    taken
          1D 72     GS r    refused: a status request; DLE EOT is taken
          1D 76 30  GS v 0  taken
          1D 7A     GS z    refused: settings of the machine
          1D 7C     GS |    refused: settings of the machine

      These only set something, or have no effect, which docs/PROFILE.md tells
      apart. The last word is what a listing calls the command:

";

/// What follows those lines.
pub const HELP_END: &str = "
  escpos_cli render [--raw] [--pass] [--width D] [--text]
      Writes the paper that the commands print, an item a line: rows of
      characters with their alignment and styles, barcodes, rasters, QR codes,
      feeds of lines (`feed`) and of motion units (`units`), and cuts. After a
      refused byte or a command that isn't complete the last line of `check`
      follows. A line has 512 dots, or as many as --width says, 1 to 1024.

          $ escpos_cli render --raw < capture.bin
          $ echo '1B 40 48 69 0A 1D 56 00' | escpos_cli render
          row left Hi
          feed 1
          cut full

      A style is [F,W,H,B,U,T]: font A or B, width, height, emphasis 1 or 0,
      underline 0 to 2, code table. It stands before a character whose style
      differs from that of the one before it, or, for the first of a row, from
      the style at power-on, [A,1,1,0,0,0]. Where more is set it is
      [F,W,H,B,U,T,S,R,C,N,K,1]: 1 or 0 for double strike and white on black,
      the character set, the space to the right in dots, the colour, and 1 for
      turned; zeros at its end after C are left out. A row that is upside down is
      `row ALIGN upside CELLS`, and a feed with a line spacing of M motion units
      is `feed N spacing M`. `@D` stands before a character that doesn't follow
      the one before it: its left edge is at dot D, in a row at the left. ALIGN
      is followed by ` margin M` and ` width W` where these are set, but in a
      row at the left that isn't upside down.

      A barcode is `bars ALIGN SYMBOLOGY HEIGHT MODULE PLACE FONT CONTENT`: its
      height and module width in dots, where its text stands and in which font,
      and its content with the check digit, if that had to be added. A raster is
      `raster ALIGN SCALE X Y DOTS`: X bytes in each of Y rows, in hexadecimal.
      A QR code is `qr ALIGN MODEL SIZE LEVEL CONTENT`: model 1 or 2, the dots
      of a module, the level of error correction, and its content.

          $ echo '1D 6B 44 07 35 35 31 32 33 34 35' | escpos_cli render
          bars left ean8 162 3 none A 55123457

      With --text a row has no styles: it is `row ALIGN TEXT`, in the characters
      that its bytes print with their code table and character set, in UTF-8,
      and U+FFFD for each that isn't known.

          $ echo '1B 74 13 D5 34 0A' | escpos_cli render --text
          row left €4
          feed 1

  escpos_cli draw [--raw] [--pass] [--width D]
      Draws the same paper as a picture, an SVG document that any browser shows:
      text that can be selected, the dots of rasters, and barcodes that a
      scanner reads. One that doesn't fit on the line, or that its symbology
      can't spell, is a box with the words `not scannable`. A QR code is a box
      of its size with its content in it; its modules aren't drawn. After a
      refused byte or a command that isn't complete the last line of `check`
      stands under the paper.

          $ escpos_cli draw --raw < capture.bin > receipt.svg
          $ echo '1B 40 48 69 0A 1D 56 00' | escpos_cli draw > receipt.svg

  escpos_cli encode [--raw] [--width D] [--replace C]
      Reads a receipt in JSON from standard input, and writes the bytes of its
      commands: with `--raw` as they are, with no line end, otherwise in
      hexadecimal, in one line.

          $ escpos_cli encode --raw < receipt.json > /dev/usb/lp0
          $ echo '[{\"line\":\"Hi\"},{\"cut\":\"full\"}]' | escpos_cli encode
          48690a1d5600

      A receipt is an array of objects with one member each. A number is an
      integer without sign, fraction or exponent.

          {\"text\":\"Total\"}           text in Unicode, without control characters
          {\"line\":\"Total\"}           the same, and a line feed
          {\"pair\":[\"Coffee\",\"4.20\"]} a text on the left, one at the end of the
                                     line
          {\"row\":[[\"Coffee\",20],[\"4.20\",-9]]}
                                     texts in fields of so many characters, at
                                     the right where the number is negative
          {\"rule\":\"-\"}               a line full of a character
          {\"wrap\":\"Thank you\"}       a text, broken at blanks into lines
          {\"feed\":3}                 a feed of 0 to 255 lines
          {\"units\":40}               a feed of 0 to 255 motion units
          {\"spacing\":40}             a line spacing of 0 to 255 motion units, or
                                     \"default\"
          {\"pulse\":{\"pin\":0,\"on\":25,\"off\":250}}
                                     a pulse at pin 0 or 1, 0 to 255 units of
                                     2 ms on and off
          {\"mode\":8}                 font, emphasis, height, width and underline
                                     at once, 0 to 255 (ESC !)
          {\"bold\":true}              emphasis, true or false
          {\"strike\":true}            double strike, true or false
          {\"reverse\":true}           white on black, true or false
          {\"underline\":1}            underline of 0 to 2 dots
          {\"font\":\"B\"}               font, \"A\" or \"B\"
          {\"table\":16}               code table, 0 to 255
          {\"tables\":[0,19]}          code tables that texts may use, see below
          {\"charset\":2}              international character set, 0 to 17
          {\"align\":\"center\"}         \"left\", \"center\" or \"right\"
          {\"upside\":true}            lines upside down, true or false
          {\"size\":[2,1]}             width and height of characters, 1 to 8 each
          {\"bar_height\":80}          height of barcodes, 1 to 255 dots
          {\"bar_width\":2}            module width of barcodes, 2 to 6 dots
          {\"hri\":\"below\"}            text of barcodes: \"none\", \"above\", \"below\"
                                     or \"both\"
          {\"hri_font\":\"B\"}           its font, \"A\" or \"B\"
          {\"bars\":{\"kind\":\"ean13\",\"content\":\"400638133393\"}}
                                     a barcode: \"upca\", \"upce\", \"ean13\",
                                     \"ean8\", \"code39\", \"itf\", \"codabar\",
                                     \"code93\", \"code128\" or \"gs1_128\"
          {\"raster\":{\"scale\":\"normal\",\"x\":1,\"y\":2,\"dots\":\"f00f\"}}
                                     an image of x bytes, 1 to 128, in each of y
                                     rows, 1 to 4095; \"normal\", \"wide\", \"tall\"
                                     or \"both\"
          {\"qr\":{\"content\":\"https://kola.example/7\",\"size\":4,\"level\":\"M\"}}
                                     a QR code of 1 to 7089 bytes, with modules
                                     of 1 to 16 dots and the level of error
                                     correction \"L\", \"M\", \"Q\" or \"H\"
          {\"cut\":\"full\"}             a cut, \"full\" or \"partial\"
          {\"feed_cut\":{\"kind\":\"partial\",\"feed\":3}}
                                     the same after a feed of 0 to 255 units

      At the end no text may be left in the line, and none may stand in it at a
      barcode, an image, a QR code or a cut. Input that isn't a receipt gives
      one line, `refused N NAME` or `refused N NAME PLACE`: 1 Empty, 3 TextLeft,
      4 MidLine, 9 RealTime (bytes that a printer obeys at once), 10 NotPrintable
      (a barcode or QR code that isn't printed; where PLACE is the command's),
      5 NotJson, 6 BadShape, 7 ControlByte, 8 NoCharacter (where PLACE is the
      entry's). Places are counted from 0. NoCharacter is followed by the
      character, as U+6F22.

      Each character of a text is printed with the code table in force if that
      has it, otherwise with the first of `tables` that has it, which is then in
      force. Where no `tables` are given, these are 0, 19, 16, 18, 17, 14, 13, 1
      and then all others that are known, by their numbers. With --replace the
      character C, 20 to 7E hexadecimal, is printed in place of one that none
      has; otherwise a receipt with such a character is refused.

      A pair, a row, a rule and a wrapped text are whole lines, in the font and
      size in force; text that is in the line is printed first. A line has 512
      dots, or as many as --width says. What doesn't fit on it is wrapped: a
      pair's right text comes on a line of its own if it must. Text that doesn't
      fit into its field is cut off.

          $ echo '[{\"pair\":[\"Tea\",\"2.10\"]}]' |
            escpos_cli encode --width 144 | escpos_cli render --width 144
          row left Tea     2.10
          feed 1

  escpos_cli image [--width D] [--threshold T]
      Reads a PBM, PGM or PPM picture (P1 to P6), and writes the entries of a
      receipt that print it, an entry a line. A picture that is wider than a
      line, of D dots, 1 to 1024, or 512 without --width, is scaled down to it.
      With --threshold a dot is black where its gray value, 0 to 255, is below
      T, 1 to 255; otherwise the grays are shown by dots that lie closer or
      wider (Floyd and Steinberg). Input that is no picture gives one line,
      `refused N NAME` or `refused N NAME PLACE`, with the place of the byte: 1
      NotPicture, 2 BadHeader, 3 BadSize, 4 BadMaximum, 5 BadSample, 6 CutShort.

          $ pngtopnm logo.png | escpos_cli image --width 384
          $ printf 'P1 8 2 11110000 00001111' | escpos_cli image
          {\"raster\":{\"scale\":\"normal\",\"x\":1,\"y\":2,\"dots\":\"f00f\"}}

  escpos_cli play
      Reads a script of what happens on a line between a host, as a till is, and
      a printer. Each of its lines is an event, and gives one line:

          linkup            `ok`: the host opens a link, with an opening mark
          linkup-reports    `ok`: it does so after it has the printer tell its
                            condition unasked
          ask-reports       `ok`: it asks for that on an open link
          nudge             `ok`: it puts one more opening mark out
          submit RECEIPT    `ok`: it puts a receipt out, in JSON as for `encode`
          ask N             `ok`: it asks for the status N, 1 to 4
          move K            `moved N`: up to K bytes leave the host for its link
          deliver K         `fed C` and `all`, `full`, `offline` or `fault`, its
                            number and name: up to K bytes of the oldest link
                            reach the printer
          handover          `handed on`, `handed lost` or `handed none`: the
                            oldest answer leaves the printer
          answer K          `heard C` and `opened`, `recorded N`, `status HH`,
                            `condition HH HH HH HH`, `bad` or `none`: up to K
                            bytes of answers reach the host
          leave             `ok`: the printer leaves the oldest link
          printer-restart   `ok`: it is switched off and on
          drop              `ok`: the host gives its link up
          host-restart F    `ok`: it goes on with its records, F its next mark
          condition CNP     `ok`: cover open, paper near its end, paper ended; a
                            digit 0 or 1 each

      An event that can't happen gives `refused NUMBER NAME`, and text that
      isn't a receipt gives `receipt` and the line of `encode`; then the script
      goes on. A line that is none of these gives `line N unreadable` and ends
      it. At the end come `paper`, the paper as `render` writes it, and `records
      N`, the receipts that the host has recorded as printed. The printer is
      online at first, and the first mark is 0.

      Here the link breaks before a receipt's mark is answered, and the answer
      comes late: on the next link, before that is open. `deliver` records the
      receipt then. This script sends it again; it stands on the paper twice,
      and is recorded once, when the second mark is answered.

          linkup                      ok
          move 11                     moved 11
          deliver 11                  fed 11 all
          handover                    handed on
          answer 7                    heard 7 opened
          submit [{\"line\":\"Hi\"}]      ok
          move 16                     moved 16
          deliver 16                  fed 16 all
          drop                        ok
          linkup                      ok
          leave                       ok
          handover                    handed on
          answer 7                    heard 7 none
          move 11                     moved 11
          deliver 11                  fed 11 all
          handover                    handed on
          answer 7                    heard 7 opened
          submit [{\"line\":\"Hi\"}]      ok
          move 16                     moved 16
          deliver 16                  fed 16 all
          handover                    handed on
          answer 7                    heard 7 recorded 0
                                      paper
                                      row left Hi
                                      feed 1
                                      row left Hi
                                      feed 1
                                      records 1

  escpos_cli emulate ADDRESS [--links N | --follow] [--condition CNP]
                             [--condition-file PATH] [--width D]
      Is a printer that listens at ADDRESS: an IP address or a host's name, and
      a port, as in 127.0.0.1:9100, [::1]:9100 or printer.shop:9100. It serves N
      links one after another, 1 to 1000; one without --links. When a link has
      ended it prints `link I read R consumed C written W END`: the number of
      the link, from 1, the bytes that came from it, how many of them the
      printer took, the bytes of its answers, and why the link ended: Ended,
      TooLong (after 16777216 bytes), Fault (a refused byte), Offline,
      ReadFault, WriteFault or Memory. At the end it writes the paper as
      `render` does. If it can't listen or accept a link, only exit status 3
      says so.

      With --follow it serves links until it is ended, and writes what each link
      printed after the line of that link. --condition says what its sensors
      see: cover open, paper near its end, paper ended; a digit 0 or 1 each. It
      is offline while its cover is open or its paper has ended. Without
      --condition it is 000.

      With --condition-file its sensors see what stands in a file, three such
      digits, which is looked at before each byte and ten times a second:
      --condition until it is read, and then what it said last. Offline, it
      keeps its link and holds what comes, status requests too; online again
      it prints that, also if the host has left. PATH has at most 259 bytes.

          $ escpos_cli emulate 127.0.0.1:9100 --follow
          link 1 read 49 consumed 49 written 28 Ended
          row left Hi
          feed 1

  escpos_cli send ADDRESS --first F [--openings N] [--wait S]
                          [--width D] [--replace C]
      Reads a receipt in JSON as `encode` does, connects to the printer at
      ADDRESS, sends the receipt, and waits for the answer to the mark after it.
      Then the receipt is on paper, and the first line is `recorded 0`;
      otherwise it is `not recorded WHY`: Ended, ReadFault or WriteFault (the
      link), TimedOut, TooLong (65536 bytes were read), BadAnswer or
      MarksUsedUp; or it is `memory`. A receipt that isn't recorded may be on
      paper or not. Without a connection the one line is `no link`. Input that
      isn't a receipt is refused as by `encode`, and nothing is connected.
      --width and --replace are those of `encode`.

      ADDRESS is as for `emulate`, or a device file that is read and written:
      `file:` and its whole path, as in file:/dev/usb/lp0.

      With --wait the connection is made within S seconds, 1 to 3600, or there
      is none, and a wait of S seconds for a byte, or to put one, gives
      TimedOut. Otherwise a wait lasts as long as the link.

      Each mark has a number of its own, 0 to 4294967294. F is the first one
      that this till hasn't used with this printer, and the last line is `next
      M` with the one that comes after; keep M for the next run. A receipt takes
      one number and N more to open the link, 1 to 99; three without --openings.

          $ echo '[{\"line\":\"Hi\"}]' |
            escpos_cli send 127.0.0.1:9100 --first 0 --wait 30
          recorded 0
          next 4

  escpos_cli status ADDRESS [--wait S]
      Asks the printer at ADDRESS what its sensors see. It prints `online` or
      `offline`; `cover closed` or `cover open`; and `paper there`, `paper near
      its end` or `paper ended`. No mark is used. If the printer doesn't say,
      the one line is `no link`, or `no status WHY`, as for `send`; ADDRESS and
      --wait are those of `send`.

          $ escpos_cli status 127.0.0.1:9100 --wait 5
          online
          cover closed
          paper there

  escpos_cli probe ADDRESS [--wait S]
      Asks the printer at ADDRESS, one thing after another and each on a link
      of its own, which requests it answers, and prints nothing on its paper. A
      line for each has the answer's bytes, or `no answer`; the first says what
      came unasked. The last three say whether the printer sends nothing
      unasked, answers marks, and tells its status: `deliver` needs the first
      two. The exit status is 0 if it does both, otherwise 1. A byte is waited
      for S seconds, 1 to 3600; two without --wait. Automatic status back is
      off afterwards, and no mark's number is used. Without a connection the one
      line is `no link`.

          $ escpos_cli probe printer.shop:9100
          unasked: no answer
          DLE EOT 1: 16
          ..
          sends nothing unasked: yes
          answers marks: yes
          tells its status: yes

  escpos_cli loop [--width D]
      Reads a receipt, is both ends of a link over 127.0.0.1, and prints the
      paper and then `recorded 0`. If something goes wrong, the last line is
      that of `send`, or `not recorded` and the end of the printer's link.

          $ echo '[{\"line\":\"Hi\"}]' | escpos_cli loop
          row left Hi
          feed 1
          recorded 0

  escpos_cli queue LEDGER [--again N | [--width D] [--raw | --replace C]
                                       [--key K]]
      Reads a receipt in JSON as `encode` does, takes it into the file LEDGER,
      and prints `queued N`: its number, from 1. From then on it is kept,
      whatever is switched off, and --width and --replace, which are those of
      `encode`, with it. A file that isn't there is made. A printer has one
      ledger, and a ledger one printer. If it can't be used, the line is that
      of `ledger`.

      With --raw it reads a stream of bytes, as python-escpos, escpos-php and
      others make it. That is a receipt if its commands are one without each
      ESC @ at the beginning and at the end, GS a and DLE EOT. Otherwise the
      line is that of `encode`, where the place counts bytes; or, where a byte
      is refused, `refused`, the number of `check` plus 20, its name and the
      place; or `refused 26 CutShort P`, if the command at P isn't whole.

      With --again N nothing is read: receipt N, whatever became of it, is taken
      once more, with a number of its own. If no receipt N was taken, the line
      is `refused NotTaken N`; if it was over before the ledger was renewed,
      `refused Earlier N`.

      With --key K, 1 to 64 characters 21 to 7E, a till that lost the answer may
      ask again: if a receipt of the ledger has this key, that is the one. Its
      number is printed, and nothing is taken.

          $ echo '[{\"line\":\"Hi\"}]' | escpos_cli queue shop.ledger
          queued 1
          $ printf '\\x1b@Hi\\n' | escpos_cli queue shop.ledger --raw
          queued 2
          $ escpos_cli queue shop.ledger --again 1
          queued 3
          $ echo '[{\"line\":\"Hi\"}]' | escpos_cli queue shop.ledger --key sale-7
          queued 4
          $ echo '[{\"line\":\"Hi\"}]' | escpos_cli queue shop.ledger --key sale-7
          queued 4

  escpos_cli deliver LEDGER ADDRESS [--openings N] [--copy TEXT] [--wait S]
                                    [--patience P]
      Sends each receipt that waits to the printer at ADDRESS, in the order of
      their numbers, as `send` does; the ledger keeps the mark numbers.
      `recorded N` says that receipt N is on paper, and that the ledger has it
      so; then the next one goes over the same link. `cancelled N` says that
      somebody has taken N back since. The first that isn't recorded gives
      `waiting N WHY`, where WHY is `no link` or that of `send`, and ends it. If
      none waits, nothing is printed. ADDRESS and --wait are those of `send`. If
      the ledger can't be used, the line is that of `ledger`.

      When the printer says that it prints nothing for now, `paused N WHY` tells
      it: `paper ended`, `cover open` or `offline`. Then P seconds instead of S
      end a link on which nothing comes, 1 to 3600; 600 without --patience, and
      WHY is PaperEnded, CoverOpen or Offline.

      A receipt that was sent before may be on paper already. It is printed
      again as it is; or, with --copy, after a line with TEXT, 1 to 42
      characters, 20 to 7E hexadecimal, centred and emphasised.

          $ escpos_cli deliver shop.ledger 127.0.0.1:9100 --wait 30
          recorded 1

  escpos_cli cancel LEDGER N
      Takes receipt N back: it waits no more, and isn't sent again. `cancelled
      N` says so; if it was sent before, ` tried K` ends that line, since it may
      be on paper. One that waits no more gives `refused Recorded N`, `refused
      Cancelled N` or, if it was over before the ledger was renewed, `refused
      Earlier N`; one that was never taken gives `refused NotTaken N`. If the
      ledger can't be used, the line is that of `ledger`.

          $ escpos_cli cancel shop.ledger 2
          cancelled 2

  escpos_cli ledger LEDGER [--first F | --renew NEW]
      Lists the receipts, a line each: `N waiting`; `N tried K`, sent K times
      and not known to be printed; `N recorded R`, R its place among those
      recorded, from 0; or `N cancelled`, and ` tried K` if it was sent. The
      last line is `next M`, the next mark number. With --first it is raised to
      F first, for a printer that another till has used before; an F below it
      gives the one line `refused MarkReused M`.

          $ escpos_cli ledger shop.ledger
          1 recorded 0
          next 4

      With --renew a new ledger goes on from it, in the file NEW, which mustn't
      be there yet: it has what waits, the next numbers, and the keys of the last
      1000 receipts. LEDGER is `no ledger` from then on. The line is `renewed W`,
      where W receipts wait, or `refused Exists` if NEW is there.

          $ escpos_cli ledger shop.ledger --renew shop-2.ledger
          renewed 0

      If another process uses the ledger for longer than 5 seconds, or delivers
      from it when `deliver` or --renew is asked for, the one line is `ledger in
      use`; if LEDGER is another kind of file, or damaged, `no ledger`; and if a
      read or a write failed, `ledger failed`. So it is for the others.

  escpos_cli completions bash|zsh|fish
      Prints a script that completes the words of escpos_cli in that shell.

          $ escpos_cli completions bash > /etc/bash_completion.d/escpos_cli

  escpos_cli help
      Prints this text; so do --help and -h. After a word they print its part of
      this text, as in `escpos_cli send --help`. --version prints the version of
      the program, and the profile of commands that it knows.

Exit status: 0 good, 1 refused content, 2 usage, 3 device, 4 memory.
";
