//! Programs and files that rows of several subjects have, and their reports.

/// The flat file of an exit with 0, as it is worked out by hand.
pub const EXIT: &[u8] = b"SLK1\0\0\0\0\0\0\0\0\x0c\0\0\0\x93\x08\xd0\x05\x13\x05\0\0\x73\0\0\0";

/// The report of the same on one core.
pub const EXIT_REPORT: &[u8] =
    b"cores 1\ncycles 3\ncore 0 exit 0 at 2 retired 3 accesses 0 misses 0 retries 0 waits 0 snoops 0 writebacks 0\nbus 0 asks 0 retries 0 free 0\nconsole 0\n\n";

/// A flat file of `lui x8, 1`, `sw x10, 0(x8)` and an exit with 0.
pub const STORE: &[u8] =
    b"SLK1\0\0\0\0\0\0\0\0\x14\0\0\0\x37\x14\0\0\x23\x20\xa4\0\x93\x08\xd0\x05\x13\x05\0\0\x73\0\0\0";

/// The same as a text: each core stores its number in one line, and exits with 0.
pub const STORES: &[u8] = b"lui x8, 1\nsw x10, 0(x8)\naddi x17, x0, 93\naddi x10, x0, 0\necall";

/// The report of the same on two cores, cycle by cycle. Core 0's ask of cycle 1 is granted at 1, and its reply is due at
/// 11. Core 1 asks at 1, 5, 7, 9 and 11 and is sent away, 2 cycles after each grant. Its ask of 13 is granted then; the
/// snoop is due at 15, the flush of 15 is granted at 15, and the reply is due at 18.
pub const STORES_REPORT: &[u8] =
    b"cores 2\ncycles 22\ncore 0 exit 0 at 14 retired 5 accesses 1 misses 1 retries 0 waits 9 snoops 1 writebacks 0\ncore 1 exit 0 at 21 retired 5 accesses 1 misses 6 retries 5 waits 11 snoops 0 writebacks 0\nbus 0 asks 8 retries 5 free 17\nconsole 0\n\n";

/// The report where core 1's first ask is served before core 0's: the two change places.
pub const CHANGED_PLACES: &[u8] =
    b"cores 2\ncycles 22\ncore 0 exit 0 at 21 retired 5 accesses 1 misses 6 retries 5 waits 11 snoops 0 writebacks 0\ncore 1 exit 0 at 14 retired 5 accesses 1 misses 1 retries 0 waits 9 snoops 1 writebacks 0\nbus 0 asks 8 retries 5 free 17\nconsole 0\n\n";

/// Two cores load a word, and core 1 stores to it. Both exit with 0.
pub const STORES_AFTER_LOAD: &[u8] = b"lui x8, 1
        lw x5, 0(x8)
        beq x10, x0, done
        sw x8, 0(x8)
done:   addi x17, x0, 93
        addi x10, x0, 0
        ecall";

/// Under a lock that is taken by a swap, core k adds k + 1 to a sum, nine times: 9 * (1 + 2 + 3 + 4) = 90, the letter
/// Z. Core 0 waits for the others and prints it.
pub const LOCK: &[u8] = b"        lui  s0, 32
        addi s1, a0, 1
        addi s2, x0, 9
again:  lw   t1, 0(s0)
        bne  t1, x0, again
        addi t0, x0, 1
        amoswap.w t1, t0, (s0)
        bne  t1, x0, again
        lw   t2, 16(s0)
        add  t2, t2, s1
        sw   t2, 16(s0)
        amoswap.w x0, x0, (s0)
        addi s2, s2, -1
        bne  s2, x0, again
        addi t0, x0, 1
        addi t3, s0, 32
        amoadd.w x0, t0, (t3)
        bne  s1, t0, done
        addi t4, x0, 4
wait:   lw   t1, 32(s0)
        bne  t1, t4, wait
        lw   a0, 16(s0)
        addi a7, x0, 1
        ecall
done:   addi a7, x0, 93
        addi a0, x0, 0
        ecall
";

/// Two cores each add 2 to a word by LR and SC, 20 times: 80, the letter P. Core 0 waits for both and prints it.
pub const CONDITIONAL_SUMS: &[u8] = b"
        lui  s0, 1
        addi s2, x0, 20
again:  lr.w t0, (s0)
        addi t0, t0, 2
        sc.w t1, t0, (s0)
        bne  t1, x0, again
        addi s2, s2, -1
        bne  s2, x0, again
        addi t0, x0, 1
        addi t3, s0, 64
        amoadd.w x0, t0, (t3)
        bne  a0, x0, done
        addi t4, x0, 2
wait:   lw   t1, 64(s0)
        bne  t1, t4, wait
        lw   a0, 0(s0)
        addi a7, x0, 1
        ecall
done:   addi a7, x0, 93
        addi a0, x0, 0
        ecall
";

/// Four cores each count to 16 in a word of their own, all in one line: 64, the sign @. Core 0 waits for all, adds the
/// four words and prints the sum.
pub const WORDS_OF_ONE_LINE: &[u8] = b"
        lui  s0, 1
        slli t0, a0, 2
        add  s1, s0, t0
        addi s2, x0, 16
again:  lw   t1, 0(s1)
        addi t1, t1, 1
        sw   t1, 0(s1)
        addi s2, s2, -1
        bne  s2, x0, again
        addi t0, x0, 1
        addi t3, s0, 64
        amoadd.w x0, t0, (t3)
        bne  a0, x0, done
        addi t4, x0, 4
wait:   lw   t1, 64(s0)
        bne  t1, t4, wait
        lw   t0, 0(s0)
        lw   t1, 4(s0)
        add  a0, t0, t1
        lw   t0, 8(s0)
        add  a0, a0, t0
        lw   t0, 12(s0)
        add  a0, a0, t0
        addi a7, x0, 1
        ecall
done:   addi a7, x0, 93
        addi a0, x0, 0
        ecall
";

/// Core 0 puts the letters A to E into a word, one after another, each once a flag says that the last one was taken.
/// Core 1 prints each.
pub const PRODUCER: &[u8] = b"
        lui  s0, 1
        bne  a0, x0, takes
        addi s2, x0, 65
        addi s3, x0, 70
full:   lw   t0, 16(s0)
        bne  t0, x0, full
        sw   s2, 0(s0)
        addi t0, x0, 1
        sw   t0, 16(s0)
        addi s2, s2, 1
        bne  s2, s3, full
        j    done
takes:  addi s3, x0, 5
empty:  lw   t0, 16(s0)
        beq  t0, x0, empty
        lw   a0, 0(s0)
        addi a7, x0, 1
        ecall
        sw   x0, 16(s0)
        addi s3, s3, -1
        bne  s3, x0, empty
done:   addi a7, x0, 93
        addi a0, x0, 0
        ecall
";

/// Three cores meet three times. In round k core k prints the letter of its number before it comes to the meeting.
pub const BARRIER: &[u8] = b"
        lui  s0, 1
        addi t3, s0, 32
        addi s1, a0, 0
        addi s2, x0, 3
        addi s3, x0, 0
        addi s4, x0, 1
        addi s6, x0, 0
round:  bne  s1, s3, meet
        addi a0, s1, 97
        addi a7, x0, 1
        ecall
meet:   amoadd.w x0, s4, (t3)
        addi s6, s6, 3
wait:   lw   t1, 0(t3)
        bltu t1, s6, wait
        addi s3, s3, 1
        bne  s3, s2, round
        addi a7, x0, 93
        addi a0, x0, 0
        ecall
";

/// The report of the lock on four cores, cycle by cycle. It is that of a slow program that was written from the rules alone
/// (`outside/drifts.py`), in pieces of one cycle.
pub const LOCK_REPORT: &[u8] =
    b"cores 4\ncycles 2394\ncore 0 exit 0 at 2393 retired 771 accesses 372 misses 242 retries 178 waits 1378 snoops 64 writebacks 0\ncore 1 exit 0 at 2376 retired 563 accesses 260 misses 272 retries 192 waits 1542 snoops 85 writebacks 0\ncore 2 exit 0 at 1978 retired 391 accesses 182 misses 228 retries 160 waits 1360 snoops 78 writebacks 0\ncore 3 exit 0 at 2258 retired 575 accesses 270 misses 234 retries 165 waits 1450 snoops 80 writebacks 0\nbus 0 asks 1120 retries 695 free 2384\nconsole 1\nZ\n";

/// The text of the program of seed 7 on four cores, cycle by cycle. The numbers are those of the model in Python
/// (`outside/`), which runs the words that the rules of the generator give.
pub const GENERATED: &[u8] =
    b"gen 7 words 1005\ncores 4\ncycles 6422\ncore 0 exit 0 at 6346 retired 1005 accesses 371 misses 402 retries 121 waits 2688 snoops 241 writebacks 0\ncore 1 exit 0 at 6421 retired 1005 accesses 371 misses 436 retries 163 waits 2729 snoops 290 writebacks 0\ncore 2 exit 0 at 6401 retired 1005 accesses 371 misses 392 retries 112 waits 2753 snoops 281 writebacks 0\ncore 3 exit 0 at 6407 retired 1005 accesses 371 misses 416 retries 154 waits 2735 snoops 276 writebacks 0\nbus 0 asks 2530 retries 550 free 6391\nconsole 0\n\n";
