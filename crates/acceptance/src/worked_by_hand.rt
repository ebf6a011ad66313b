//! Solutions of problems of one and two moves, worked out by hand: each step is told. Black's moves stand behind `1...`.

use crate::composed_texts::{Composed, LETTERS, STALE, expect_texts};
use crate::composing::ALL;

const WORKED: [Composed; 12] = [
    // 1.c5 attacks d6. The pawn d5 takes c6 and e6 from the king, White's king c5, d5 and e5. White's other moves are
    // his king's, and give no check.
    (
        "a pawn mates",
        LETTERS,
        ALL,
        "3k2/3P2/2PK2/6/6/6 w",
        "\
mate in 1\n\
no set play\n\
no tries\n\
1.c5#!\n",
    ),
    // 1.Bc3 attacks a1 along the diagonal. White's king takes b1 and b2, and on a2 stands a pawn, which can't move. No
    // other move leads to that diagonal.
    (
        "a bishop mates",
        LETTERS,
        ALL,
        "5/5/1P3/p4/k1K1B w",
        "\
mate in 1\n\
no set play\n\
no tries\n\
1.Bc3#!\n",
    ),
    // A queen or a rook on a1 attacks a6 and a5. Black's king takes b6 and guards the pawn b5, and the pawn c4 can't
    // come between. A knight on a1 gives no check, nor does any other move.
    (
        "Black promotes in two ways",
        LETTERS,
        ALL,
        "K1k3/1p4/2P3/6/p5/6 b",
        "\
mate in 1, cooked by 1 key\n\
no set play\n\
no tries\n\
1.a1=Q#!\n\
1.a1=R#!\n",
    ),
    // White is in check by the pawn, so he can't pass. 1.Kd1 guards e2 and takes e1; the pawn e2 takes f3, so that only
    // 1...Kf1 is left. 2.Rf4 then attacks f1 and takes f2, and it would mate on f2 as well, where it takes f1 and f3:
    // that is the threat. 1.Kd3 leaves e1 and f1, and the three moves to the c file leave e2 too: each refutes, since
    // no move mates there.
    (
        "a king leaves a check",
        LETTERS,
        ALL,
        "6/6/3R2/4p1/3KPk/6 w",
        "\
mate in 2\n\
no set play\n\
no tries\n\
1.Kd1! threat 2.Rf4#\n  1...Kf1 2.Rf4#\n",
    ),
    // On c6 a queen or a rook takes e6 and f6, and White's king e4 and e5: 1...Kf4 is left. 2.Qf6 and 2.Rf6 attack f4
    // and take f3 and f5, and the king takes e3, e4 and e5; 2.Qe4, which the king guards, takes f3 and f5 too. A rook
    // on e4 would leave the king these two, and were Black to pass no move would mate on f5. A knight on c6 leaves f4,
    // e6 and f6, and the king's moves leave two replies at least. Where White passes none of 1...Kf4, Ke6 and Kf6 is
    // met at once.
    (
        "a queen or a rook waits",
        LETTERS,
        ALL,
        "6/2P2k/2PK2/6/6/6 w",
        "\
mate in 2, cooked by 1 key\n\
no set play\n\
no tries\n\
1.c6=Q! zugzwang\n  1...Kf4 2.Qe4#, dual 2.Qf6#\n\
1.c6=R! zugzwang\n  1...Kf4 2.Rf6#\n",
    ),
    // White's king takes d4 and e4, so 1...Kd5 is Black's one move. After 1.b4 a queen on b5 attacks d5 along the rank,
    // takes c5, e5 and c4, and the king d4 and e4; a rook leaves c4. Were Black to pass, either would mate on e5, where
    // d5 alone is left to take. 1.d3 and 1.Kd3 leave the pawn a move behind, and 1...Kd5 refutes. After 1.Ke2 there are
    // d4, e4 and d5.
    (
        "a pawn in time",
        LETTERS,
        ALL,
        "4k/5/1P2K/3P1/5 w",
        "\
mate in 2\n\
no set play\n\
tries\n\
1.d3? Kd5!\n\
1.Kd3? Kd5!\n\
1.b4! threats 2.b5=Q# 2.b5=R#\n  1...Kd5 2.b5=Q#\n",
    ),
    // White's king takes d1 and d2, and the pawn c2 takes d3, so 1...Ke2 is Black's one move, and a queen on the e file
    // out of reach mates on e1 and on e2. From a1 and b2 she comes to e5; 1.c3 opens her way to e4, from where she
    // takes d3 herself. From b4 she gives check; then 2.Qe4 mates, and 2.Qd2, which the king guards, takes e1, e3, d1
    // and d3. From a2 and b3 she has no move to the file that mates. 1.Qb5 is stalemate, and 1.Kb2+ leaves d2 and e2.
    (
        "a queen finds the file",
        LETTERS,
        ALL,
        "5/5/5/2P2/1QK1k w",
        "\
mate in 2, cooked by 3 keys\n\
no set play\n\
tries\n\
1.Qa2? Ke2!\n\
1.Qb3? Ke2!\n\
1.Qa1! threat 2.Qe5#\n  1...Ke2 2.Qe5#\n\
1.Qb2! threat 2.Qe5#\n  1...Ke2 2.Qe5#\n\
1.Qb4+!\n  1...Ke2 2.Qd2#, dual 2.Qe4#\n\
1.c3! threat 2.Qe4#\n  1...Ke2 2.Qe4#\n",
    ),
    // A queen or a rook on e1 attacks a1 and takes b1, and Black's king takes a2 and b2. White can only come between,
    // with 1...Rc1, which is taken with mate. A bishop or a knight gives no check, and 1.Kb3 none: each leaves the rook
    // its moves, and two at least refute. If Black passes, no move of White's is met at once.
    (
        "Black mates along the rank",
        LETTERS,
        ALL,
        "5/2R2/k4/4p/K4 b",
        "\
mate in 2, cooked by 1 key\n\
no set play\n\
no tries\n\
1.e1=Q+!\n  1...Rc1 2.Qxc1#\n\
1.e1=R+!\n  1...Rc1 2.Rxc1#\n",
    ),
    // The pawn c5 takes b6 and d6, the pawn c4 b5 and d5, and 1.Kb4 guards c5. Nothing attacks c6. From a4 and a6 the
    // king doesn't guard c5, and that is all that he can do else.
    (
        "a king shuts another in",
        STALE,
        ALL,
        "2k3/K1P3/2P3/6/6/6 w",
        "\
goal in 1\n\
no set play\n\
no tries\n\
1.Kb4=!\n",
    ),
    // 1.e5 gives check, and White's king guards it and takes f5: 1...Ke6 is left. 2.Ke4 then takes d5 and f5 and guards
    // e5, and the pawn takes d6 and f6. After 1.Ke3 and 1.Kf3 Black has e5 and e6, and none is met at once, nor is
    // 1...Ke6 where White passes.
    (
        "a check before stalemate",
        STALE,
        ALL,
        "5k/6/4PK/6/6/6 w",
        "\
goal in 2\n\
no set play\n\
no tries\n\
1.e5+!\n  1...Ke6 2.Ke4=\n",
    ),
    // The pawn takes a3. Where White passes, 1...Ka5 is met by 2.b3, which takes a4, while the king takes b4 and b5;
    // 1...Kb3 is met by nothing. 1.Kc4 takes b3 too and still b4 and b5, so 1...Ka5 is left, and 2.b3 stalemates again.
    // Were Black to pass, 2.b3 would be check, with a3 and a5 free. 1.b3+ is answered by 1...Ka3 and 1...Kxb3, and the
    // king's other moves leave four replies.
    (
        "the set play stays",
        STALE,
        ALL,
        "2K2/k4/5/1P3/5 w",
        "\
goal in 2\n\
set play\n  1...Ka5 2.b3=\n\
no tries\n\
1.Kc4! zugzwang\n  1...Ka5 2.b3=\n",
    ),
    // White's king takes b1 and b2. A queen on e6 gives check along the diagonal and takes b3: a1 and a3 are left. On
    // a1 the king is without a move as long as the queen takes a2 and the king b1 and b2: after 2.Kc2, 2.f5 and the
    // queen's moves along the diagonal and to e2; 2.Qa6 attacks him. On a3 2.Qc4 takes a2, b3, a4 and b4, the king b2.
    // 1.Kc2 takes b3, and after 1...Ka1 2.e6=Q stalemates, but 1...Ka3 has no answer. After 1.f5, 1.e6=R and 1.e6=N
    // both a3 and b3 refute, and the king's moves to the d file leave more. Where White passes 1...Ka1 alone is met.
    (
        "a queen leaves seven ways",
        STALE,
        ALL,
        "6/4P1/5P/6/k5/2K3 w",
        "\
goal in 2\n\
set play\n  1...Ka1 2.e6=Q=\n\
tries\n\
1.Kc2? Ka3!\n\
1.e6=Q+!\n  1...Ka1 2.Kc2=, dual 2.f5= 2.Qe2= 2.Qb3= 2.Qc4= 2.Qd5= 2.Qa6#\n  1...Ka3 2.Qc4=\n",
    ),
];

#[test]
fn solutions_are_those_worked_out_by_hand(rt: HostRuntime) {
    expect_texts(&rt, &WORKED);
}
