//! The text, in two parts with Main's number of rows between them, and its tree.
ghost use Rattle.std.specs.Prelude.{◌≡◌, ◌++◌, IfOk, Some};
ghost use Rattle.pil_ast.specs.Sound.{IsSound};
ghost use Rattle.pil_ast.specs.Tree.{namespaces};
ghost use Rattle.pil_text.specs.Computed.{computed};
ghost use Rattle.pil_text.specs.Text.{IsShort, Reads};
ghost use Rattle.machine_text.specs.Machine.{machine, main_digits};
ghost use Rattle.gold.specs.declared.shapes.Profile.{Profile as ProfileOf};

use gold::Profile;
use pil_ast::Pil;
use pil_text::{computed_reads, read};
use std::alloc::{AllocError, Global};

/// The text up to Main's number of rows, and behind it. A comment in it has a number of a line, or what
/// stands below it in the abbreviations of docs/CONSTRAINTS.md.
fn parts() -> (&'static [u8], &'static [u8])
    ensures computed { (p : ProfileOf) → computed (result.0.now ++ (main_digits p ++ result.1.now)) ≡ Some (machine p) }
    ensures short { (p : ProfileOf) → IsShort (result.0.now ++ (main_digits p ++ result.1.now)) }
{
    (
        b"constant %K = 4294967296;
constant %M = 4294967295;

namespace Bit(2);          pol constant V;
namespace Range16(65536);  pol constant V;
namespace BinTab(65536);   pol constant X, Y, AND;
namespace ShiftTab(512);
pol constant SEL, OP, S, RT, AR, WW, U0, U1, U2, U3, M;
namespace Rom(1024);
pol constant SEL, PC, RS1, RS2, RD, OP, ILO, IHI, KLO, KHI, JT, KIND,
  BI, WR, LD, ST, JR, JP, BR, INV, HALT, UW;
namespace Init(1024);      pol constant SEL, KEY, LO, HI;

namespace Main(",
        b");
pol constant STEP, INST, LAST, L0, CLAST, CFIRST, LEND, ENTRY;
pol commit sel, pc, rs1, rs2, rd, op, ilo, ihi, klo, khi, jt, kind,
  bi, wr, ld, st, jr, jp, br, inv, halt, uw;
pol commit alo, ahi, slo, shi, clo, chi, flag, bit, wl, wh, off,
  olo, ohi, mlo, mhi;
pol blo = bi*ilo + (1 - bi)*slo;
pol bhi = bi*ihi + (1 - bi)*shi;
pol ms = sel*(ld + st);
pol w = wl + 65536*wh;
pol vlo = jr*klo + ld*mlo + (1 - jr - ld)*clo;
pol vhi = jr*khi + ld*mhi + (1 - jr - ld)*chi;
pol tk = flag + inv - 2*flag*inv;
pol nx = pc + 4 + (jp + br*tk)*(jt - pc - 4) + jr*(clo - bit - pc - 4);
pol go = sel*(1 - halt);
{sel} in {Bit.V};                                            // 1
L0*(sel - 1) = 0;                                        // 2
L0*(pc - ENTRY) = 0;                                     // 3
(1 - LAST)*(sel' - go) = 0;                              // 4
(1 - LAST)*go*(pc' - nx) = 0;                            // 5
LEND*go = 0;                                             // 6
CLAST {INST + 1, go, go*nx} is CFIRST {INST, sel, sel*pc};   // 7
sel {pc, rs1, rs2, rd, op, ilo, ihi, klo, khi, jt, kind, bi, wr, ld,
  st, jr, jp, br, inv, halt, uw} in Rom.SEL {Rom.PC, Rom.RS1, Rom.RS2,
  Rom.RD, Rom.OP, Rom.ILO, Rom.IHI, Rom.KLO, Rom.KHI, Rom.JT, Rom.KIND,
  Rom.BI, Rom.WR, Rom.LD, Rom.ST, Rom.JR, Rom.JP, Rom.BR, Rom.INV,
  Rom.HALT, Rom.UW};                                     // 8
sel*halt*(alo - 93) = 0;                                 // 9
sel*halt*ahi = 0;                                        // 10
sel*jr*chi = 0;                                          // 11
(sel*jr) {bit} in {Bit.V};                                   // 12
ms*chi = 0;                                              // 13
ms*(clo - 8*w - off) = 0;                                // 14
// each(ms; wl, wh, 8*wh) in R16;                           // 15 to 17
ms {wl} in {Range16.V}; ms {wh} in {Range16.V}; ms {8*wh} in {Range16.V};
sel {op, alo, (1 - uw)*ahi, blo, bhi, clo, chi, flag} is
  Binary.sel {Binary.op, Binary.alo, Binary.ahi, Binary.blo, Binary.bhi,
    Binary.clo, Binary.chi, Binary.flag}
  + Shift.sel {Shift.op, Shift.alo, Shift.ahi, Shift.blo, Shift.bhi,
    Shift.clo, Shift.chi, 0}
  + Arith.sel {Arith.op, Arith.alo, Arith.ahi, Arith.blo, Arith.bhi,
    Arith.clo, Arith.chi, 0};                            // 18
ms {kind, off, olo, ohi, slo, shi, mlo, mhi} is
  Align.sel {Align.kind, Align.off, Align.olo, Align.ohi, Align.vlo,
    Align.vhi, Align.mlo, Align.mhi};                    // 19
sel {536870912 + rs1, 8*STEP + 1, 0, alo, ahi}
  + sel {536870912 + rs2, 8*STEP + 2, 0, slo, shi}
  + ms {w, 8*STEP + 3, 0, olo, ohi}
  + (sel*st) {w, 8*STEP + 4, 1, mlo, mhi}
  + (sel*wr) {536870912 + rd, 8*STEP + 5, 1, vlo, vhi}
  + Init.SEL {Init.KEY, 0, 1, Init.LO, Init.HI}
  + Out.SEL {Out.KEY, 34359738368, 0, Out.lo, Out.hi}
  is Mem.sel {Mem.key, Mem.time, Mem.wr, Mem.lo, Mem.hi};    // 20

namespace Mem(8192);
pol constant INST, LAST, L0, CLAST, CFIRST;
pol commit sel, key, time, wr, lo, hi, same, g[3],
  psel, pkey, ptime, plo, phi;
pol gap = g[0] + 65536*g[1] + %K*g[2];
pol on = sel*(1 - L0);
{sel} in {Bit.V};                                            // 21
sel {same} in {Bit.V};                                       // 22
(1 - LAST)*(psel' - sel) = 0;                            // 23
(1 - LAST)*(pkey' - key) = 0;                            // 24
(1 - LAST)*(ptime' - time) = 0;                          // 25
(1 - LAST)*(plo' - lo) = 0;                              // 26
(1 - LAST)*(phi' - hi) = 0;                              // 27
CLAST {INST + 1, sel, key, time, lo, hi}
  is CFIRST {INST, psel, pkey, ptime, plo, phi};         // 28
on*(1 - psel) = 0;                                       // 29
L0*sel*same = 0;                                         // 30
on*same*(key - pkey) = 0;                                // 31
on*(gap - same*(time - ptime - 1) - (1 - same)*(key - pkey - 1)) = 0;
sel*(1 - wr)*(lo - same*plo) = 0;                        // 33
sel*(1 - wr)*(hi - same*phi) = 0;                        // 34
// each(sel; g[*]) in R16;                                  // 35 to 37
sel {g[0]} in {Range16.V}; sel {g[1]} in {Range16.V}; sel {g[2]} in {Range16.V};

namespace Out(64);
pol constant SEL, KEY;
pol commit lo, hi;
// for i = 0..32: public l<i> = Out.lo(i); public h<i> = Out.hi(i);
public l0 = Out.lo(0); public h0 = Out.hi(0); public l1 = Out.lo(1); public h1 = Out.hi(1);
public l2 = Out.lo(2); public h2 = Out.hi(2); public l3 = Out.lo(3); public h3 = Out.hi(3);
public l4 = Out.lo(4); public h4 = Out.hi(4); public l5 = Out.lo(5); public h5 = Out.hi(5);
public l6 = Out.lo(6); public h6 = Out.hi(6); public l7 = Out.lo(7); public h7 = Out.hi(7);
public l8 = Out.lo(8); public h8 = Out.hi(8); public l9 = Out.lo(9); public h9 = Out.hi(9);
public l10 = Out.lo(10); public h10 = Out.hi(10); public l11 = Out.lo(11); public h11 = Out.hi(11);
public l12 = Out.lo(12); public h12 = Out.hi(12); public l13 = Out.lo(13); public h13 = Out.hi(13);
public l14 = Out.lo(14); public h14 = Out.hi(14); public l15 = Out.lo(15); public h15 = Out.hi(15);
public l16 = Out.lo(16); public h16 = Out.hi(16); public l17 = Out.lo(17); public h17 = Out.hi(17);
public l18 = Out.lo(18); public h18 = Out.hi(18); public l19 = Out.lo(19); public h19 = Out.hi(19);
public l20 = Out.lo(20); public h20 = Out.hi(20); public l21 = Out.lo(21); public h21 = Out.hi(21);
public l22 = Out.lo(22); public h22 = Out.hi(22); public l23 = Out.lo(23); public h23 = Out.hi(23);
public l24 = Out.lo(24); public h24 = Out.hi(24); public l25 = Out.lo(25); public h25 = Out.hi(25);
public l26 = Out.lo(26); public h26 = Out.hi(26); public l27 = Out.lo(27); public h27 = Out.hi(27);
public l28 = Out.lo(28); public h28 = Out.hi(28); public l29 = Out.lo(29); public h29 = Out.hi(29);
public l30 = Out.lo(30); public h30 = Out.hi(30); public l31 = Out.lo(31); public h31 = Out.hi(31);
public l32 = Out.lo(32); public h32 = Out.hi(32);

namespace Align(2048);
pol commit sel, q[11], f[8], o[8], v[8], ts, rs;
// pol kind = num(q, 1);
pol kind = 1*q[0] + 2*q[1] + 3*q[2] + 4*q[3] + 5*q[4] + 6*q[5] + 7*q[6] + 8*q[7] + 9*q[8] + 10*q[9] + 11*q[10];
// pol off = num(f, 0);
pol off = 0*f[0] + 1*f[1] + 2*f[2] + 3*f[3] + 4*f[4] + 5*f[5] + 6*f[6] + 7*f[7];
// pol olo = lo4(o);   pol ohi = hi4(o);
pol olo = o[0] + 256*o[1] + 65536*o[2] + 16777216*o[3];
pol ohi = o[4] + 256*o[5] + 65536*o[6] + 16777216*o[7];
// pol vlo = lo4(v);   pol vhi = hi4(v);
pol vlo = v[0] + 256*v[1] + 65536*v[2] + 16777216*v[3];
pol vhi = v[4] + 256*v[5] + 65536*v[6] + 16777216*v[7];
pol e0 = f[0]*o[0] + f[1]*o[1] + f[2]*o[2] + f[3]*o[3]
  + f[4]*o[4] + f[5]*o[5] + f[6]*o[6] + f[7]*o[7];
pol e1 = f[0]*o[1] + f[2]*o[3] + f[4]*o[5] + f[6]*o[7];
pol e2 = f[0]*o[2] + f[4]*o[6];
pol e3 = f[0]*o[3] + f[4]*o[7];
// for i = 0..7, F being f[0] for i below 4 and else f[4], the second
// product left out for i = 0, and j being i mod 4:
// pol n<i> = o[i] + (q[7] + q[8])*f[i]*(v[0] - o[i])
//   + q[8]*f[i-1]*(v[1] - o[i]) + q[9]*F*(v[j] - o[i])
//   + q[10]*(v[i] - o[i]);
pol n0 = o[0] + (q[7] + q[8])*f[0]*(v[0] - o[0]) + q[9]*f[0]*(v[0] - o[0]) + q[10]*(v[0] - o[0]);
pol n1 = o[1] + (q[7] + q[8])*f[1]*(v[0] - o[1]) + q[8]*f[0]*(v[1] - o[1]) + q[9]*f[0]*(v[1] - o[1]) + q[10]*(v[1] - o[1]);
pol n2 = o[2] + (q[7] + q[8])*f[2]*(v[0] - o[2]) + q[8]*f[1]*(v[1] - o[2]) + q[9]*f[0]*(v[2] - o[2]) + q[10]*(v[2] - o[2]);
pol n3 = o[3] + (q[7] + q[8])*f[3]*(v[0] - o[3]) + q[8]*f[2]*(v[1] - o[3]) + q[9]*f[0]*(v[3] - o[3]) + q[10]*(v[3] - o[3]);
pol n4 = o[4] + (q[7] + q[8])*f[4]*(v[0] - o[4]) + q[8]*f[3]*(v[1] - o[4]) + q[9]*f[4]*(v[0] - o[4]) + q[10]*(v[4] - o[4]);
pol n5 = o[5] + (q[7] + q[8])*f[5]*(v[0] - o[5]) + q[8]*f[4]*(v[1] - o[5]) + q[9]*f[4]*(v[1] - o[5]) + q[10]*(v[5] - o[5]);
pol n6 = o[6] + (q[7] + q[8])*f[6]*(v[0] - o[6]) + q[8]*f[5]*(v[1] - o[6]) + q[9]*f[4]*(v[2] - o[6]) + q[10]*(v[6] - o[6]);
pol n7 = o[7] + (q[7] + q[8])*f[7]*(v[0] - o[7]) + q[8]*f[6]*(v[1] - o[7]) + q[9]*f[4]*(v[3] - o[7]) + q[10]*(v[7] - o[7]);
pol st = q[7] + q[8] + q[9] + q[10];
pol mlo = (q[0] + q[4])*e0 + (q[1] + q[5])*(e0 + 256*e1)
  + (q[2] + q[6] + q[3])*(e0 + 256*e1 + 65536*e2 + 16777216*e3)
  + q[0]*ts*4294967040 + q[1]*ts*4294901760
  + st*(n0 + 256*n1 + 65536*n2 + 16777216*n3);
pol mhi = q[3]*ohi + (q[0] + q[1] + q[2])*ts*%M
  + st*(n4 + 256*n5 + 65536*n6 + 16777216*n7);
{sel} in {Bit.V};
// each(sel; q[*], f[*]) in BIT;
sel {q[0]} in {Bit.V}; sel {q[1]} in {Bit.V}; sel {q[2]} in {Bit.V}; sel {q[3]} in {Bit.V};
sel {q[4]} in {Bit.V}; sel {q[5]} in {Bit.V}; sel {q[6]} in {Bit.V}; sel {q[7]} in {Bit.V};
sel {q[8]} in {Bit.V}; sel {q[9]} in {Bit.V}; sel {q[10]} in {Bit.V}; sel {f[0]} in {Bit.V};
sel {f[1]} in {Bit.V}; sel {f[2]} in {Bit.V}; sel {f[3]} in {Bit.V}; sel {f[4]} in {Bit.V};
sel {f[5]} in {Bit.V}; sel {f[6]} in {Bit.V}; sel {f[7]} in {Bit.V};
// sel*(sum(q) - 1) = 0;
sel*(q[0] + q[1] + q[2] + q[3] + q[4] + q[5] + q[6] + q[7] + q[8] + q[9] + q[10] - 1) = 0;
// sel*(sum(f) - 1) = 0;
sel*(f[0] + f[1] + f[2] + f[3] + f[4] + f[5] + f[6] + f[7] - 1) = 0;
sel*(q[1] + q[5] + q[8])*(f[1] + f[3] + f[5] + f[7]) = 0;
sel*(q[2] + q[6] + q[9])*(1 - f[0] - f[4]) = 0;
sel*(q[3] + q[10])*(1 - f[0]) = 0;
sel*(q[0]*e0 + q[1]*e1 + q[2]*e3 - 128*ts - rs) = 0;
sel {ts} in {Bit.V};
// each(sel; rs, 512*rs) in R16;
sel {rs} in {Range16.V}; sel {512*rs} in {Range16.V};
// for i = 0..7: sel {o[i], v[i]} in {BinTab.X, BinTab.Y};
sel {o[0], v[0]} in {BinTab.X, BinTab.Y}; sel {o[1], v[1]} in {BinTab.X, BinTab.Y};
sel {o[2], v[2]} in {BinTab.X, BinTab.Y}; sel {o[3], v[3]} in {BinTab.X, BinTab.Y};
sel {o[4], v[4]} in {BinTab.X, BinTab.Y}; sel {o[5], v[5]} in {BinTab.X, BinTab.Y};
sel {o[6], v[6]} in {BinTab.X, BinTab.Y}; sel {o[7], v[7]} in {BinTab.X, BinTab.Y};

namespace Binary(4096);
pol commit sel, q[10], x[5], a[8], b[8], n[8], z[4], k0, k1, j0, j1,
  sa, ra, sb, rb, sw, rw, eq, e[2];
// pol op = num(q, 1) + num(x, 30);
pol op = 1*q[0] + 2*q[1] + 3*q[2] + 4*q[3] + 5*q[4] + 6*q[5] + 7*q[6] + 8*q[7] + 9*q[8] + 10*q[9] + 30*x[0] + 31*x[1] + 32*x[2] + 33*x[3] + 34*x[4];
// pol alo = lo4(a);   pol ahi = hi4(a);
pol alo = a[0] + 256*a[1] + 65536*a[2] + 16777216*a[3];
pol ahi = a[4] + 256*a[5] + 65536*a[6] + 16777216*a[7];
// pol blo = lo4(b);   pol bhi = hi4(b);
pol blo = b[0] + 256*b[1] + 65536*b[2] + 16777216*b[3];
pol bhi = b[4] + 256*b[5] + 65536*b[6] + 16777216*b[7];
// pol nlo = lo4(n);   pol nhi = hi4(n);
pol nlo = n[0] + 256*n[1] + 65536*n[2] + 16777216*n[3];
pol nhi = n[4] + 256*n[5] + 65536*n[6] + 16777216*n[7];
// pol zlo = lo2(z);   pol zhi = hi2(z);
pol zlo = z[0] + 65536*z[1];
pol zhi = z[2] + 65536*z[3];
pol mi = q[1] + q[2] + q[3] + q[4] + q[9];
pol m = 1 + x[0] + 3*x[1] + 7*x[2];
pol sh = x[0] + x[1] + x[2];
pol cz = x[3] + x[4];
pol kp = x[3]*(1 - eq) + x[4]*eq;
pol df = sa + sb - 2*sa*sb;
pol flag = q[2]*k1 + q[3]*(df*sa + (1 - df)*k1) + q[4]*eq;
pol clo = (q[0] + q[1] + q[8] + q[9] + sh)*zlo + flag + kp*alo
  + q[5]*nlo + q[6]*(alo + blo - nlo) + q[7]*(alo + blo - 2*nlo);
pol chi = (q[0] + q[1] + sh)*zhi + kp*ahi + (q[8] + q[9])*sw*%M
  + q[5]*nhi + q[6]*(ahi + bhi - nhi) + q[7]*(ahi + bhi - 2*nhi);
// pol s = sum(z);
pol s = z[0] + z[1] + z[2] + z[3];
{sel} in {Bit.V};
// each(sel; q[*], x[*]) in BIT;
sel {q[0]} in {Bit.V}; sel {q[1]} in {Bit.V}; sel {q[2]} in {Bit.V}; sel {q[3]} in {Bit.V};
sel {q[4]} in {Bit.V}; sel {q[5]} in {Bit.V}; sel {q[6]} in {Bit.V}; sel {q[7]} in {Bit.V};
sel {q[8]} in {Bit.V}; sel {q[9]} in {Bit.V}; sel {x[0]} in {Bit.V}; sel {x[1]} in {Bit.V};
sel {x[2]} in {Bit.V}; sel {x[3]} in {Bit.V}; sel {x[4]} in {Bit.V};
// sel*(sum(q) + sum(x) - 1) = 0;
sel*(q[0] + q[1] + q[2] + q[3] + q[4] + q[5] + q[6] + q[7] + q[8] + q[9] + x[0] + x[1] + x[2] + x[3] + x[4] - 1) = 0;
// for i = 0..7: sel {a[i], b[i], n[i]} in {BinTab.X, BinTab.Y, BinTab.AND};
sel {a[0], b[0], n[0]} in {BinTab.X, BinTab.Y, BinTab.AND};
sel {a[1], b[1], n[1]} in {BinTab.X, BinTab.Y, BinTab.AND};
sel {a[2], b[2], n[2]} in {BinTab.X, BinTab.Y, BinTab.AND};
sel {a[3], b[3], n[3]} in {BinTab.X, BinTab.Y, BinTab.AND};
sel {a[4], b[4], n[4]} in {BinTab.X, BinTab.Y, BinTab.AND};
sel {a[5], b[5], n[5]} in {BinTab.X, BinTab.Y, BinTab.AND};
sel {a[6], b[6], n[6]} in {BinTab.X, BinTab.Y, BinTab.AND};
sel {a[7], b[7], n[7]} in {BinTab.X, BinTab.Y, BinTab.AND};
// each(sel; z[*]) in R16;
sel {z[0]} in {Range16.V}; sel {z[1]} in {Range16.V}; sel {z[2]} in {Range16.V}; sel {z[3]} in {Range16.V};
// each(sel; k0, k1, sa, sb, sw, eq) in BIT;
sel {k0} in {Bit.V}; sel {k1} in {Bit.V}; sel {sa} in {Bit.V}; sel {sb} in {Bit.V}; sel {sw} in {Bit.V};
sel {eq} in {Bit.V};
// each(sel; ra, 512*ra, rb, 512*rb, rw, 2*rw, e[*], j0, j1) in R16;
sel {ra} in {Range16.V}; sel {512*ra} in {Range16.V}; sel {rb} in {Range16.V}; sel {512*rb} in {Range16.V};
sel {rw} in {Range16.V}; sel {2*rw} in {Range16.V}; sel {e[0]} in {Range16.V}; sel {e[1]} in {Range16.V};
sel {j0} in {Range16.V}; sel {j1} in {Range16.V};
sel*(a[7] - 128*sa - ra) = 0;
sel*(b[7] - 128*sb - rb) = 0;
sel*(z[1] - 32768*sw - rw) = 0;
sel*((1 - mi)*(m*alo + blo - zlo - %K*(k0 + j0))
  + mi*(blo + zlo - alo - %K*k0)) = 0;
sel*((1 - mi)*(m*ahi + bhi + k0 + j0 - zhi - %K*(k1 + j1))
  + mi*(bhi + zhi + k0 - ahi - %K*k1)) = 0;
sel*q[4]*eq*s = 0;
// sel*q[4]*(1 - eq)*(s - 1 - lo2(e)) = 0;
sel*q[4]*(1 - eq)*(s - 1 - (e[0] + 65536*e[1])) = 0;
// sel*cz*eq*(sum(b)) = 0;
sel*cz*eq*(b[0] + b[1] + b[2] + b[3] + b[4] + b[5] + b[6] + b[7]) = 0;
// sel*cz*(1 - eq)*(sum(b) - 1 - lo2(e)) = 0;
sel*cz*(1 - eq)*(b[0] + b[1] + b[2] + b[3] + b[4] + b[5] + b[6] + b[7] - 1 - (e[0] + 65536*e[1])) = 0;

namespace Shift(1024);
pol commit sel, op, a[4], bhi, s, t[2], rt, ar, ww, u[4], m,
  sb, xr, h[4], l[4], ws, rr;
// pol alo = lo2(a);   pol ahi = hi2(a);
pol alo = a[0] + 65536*a[1];
pol ahi = a[2] + 65536*a[3];
// pol blo = s + 64*lo2(t);
pol blo = s + 64*(t[0] + 65536*t[1]);
pol f = ar*sb;
pol e2 = (1 - ww)*a[2] + ww*f*65535;
pol e3 = (1 - ww)*a[3] + ww*f*65535;
pol d0 = (1 - rt)*l[0] + rt*(h[0] + l[1]);
pol d1 = (1 - rt)*(l[1] + h[0]) + rt*(h[1] + l[2]);
pol d2 = (1 - rt)*(l[2] + h[1]) + rt*(h[2] + l[3]);
pol d3 = (1 - rt)*(l[3] + h[2]) + rt*(h[3] + f*(65536 - m));
pol x = f*65535;
pol r0 = u[0]*d0 + rt*(u[1]*d1 + u[2]*d2 + u[3]*d3);
pol r1 = u[0]*d1 + (1 - rt)*u[1]*d0 + rt*(u[1]*d2 + u[2]*d3 + u[3]*x);
pol r2 = u[0]*d2 + (1 - rt)*(u[1]*d1 + u[2]*d0)
  + rt*(u[1]*d3 + (u[2] + u[3])*x);
pol r3 = u[0]*d3 + (1 - rt)*(u[1]*d2 + u[2]*d1 + u[3]*d0)
  + rt*(u[1] + u[2] + u[3])*x;
pol clo = r0 + 65536*r1;
pol chi = (1 - ww)*(r2 + 65536*r3) + ww*ws*%M;
{sel} in {Bit.V};
sel {op, s, rt, ar, ww, u[0], u[1], u[2], u[3], m} in ShiftTab.SEL
  {ShiftTab.OP, ShiftTab.S, ShiftTab.RT, ShiftTab.AR, ShiftTab.WW,
   ShiftTab.U0, ShiftTab.U1, ShiftTab.U2, ShiftTab.U3, ShiftTab.M};
// each(sel; a[*], t[*], 64*t[1]) in R16;
sel {a[0]} in {Range16.V}; sel {a[1]} in {Range16.V}; sel {a[2]} in {Range16.V}; sel {a[3]} in {Range16.V};
sel {t[0]} in {Range16.V}; sel {t[1]} in {Range16.V}; sel {64*t[1]} in {Range16.V};
// each(sel; sb, ws) in BIT;
sel {sb} in {Bit.V}; sel {ws} in {Bit.V};
// each(sel; xr, 2*xr, rr, 2*rr, h[*], l[*]) in R16;
sel {xr} in {Range16.V}; sel {2*xr} in {Range16.V}; sel {rr} in {Range16.V}; sel {2*rr} in {Range16.V};
sel {h[0]} in {Range16.V}; sel {h[1]} in {Range16.V}; sel {h[2]} in {Range16.V}; sel {h[3]} in {Range16.V};
sel {l[0]} in {Range16.V}; sel {l[1]} in {Range16.V}; sel {l[2]} in {Range16.V}; sel {l[3]} in {Range16.V};
sel*(ww*a[1] + (1 - ww)*a[3] - 32768*sb - xr) = 0;
sel*(a[0]*m - 65536*h[0] - l[0]) = 0;
sel*(a[1]*m - 65536*h[1] - l[1]) = 0;
sel*(e2*m - 65536*h[2] - l[2]) = 0;
sel*(e3*m - 65536*h[3] - l[3]) = 0;
sel*(r1 - 32768*ws - rr) = 0;

namespace Arith(1024);
pol commit sel, q[13], a[4], b[4], x[4], y[4], r[4], w[8], cl[7], ch[7],
  ta, ra, tb, rb, ka, kb, kn, n[2], zb, g[4], kg, z[4], k1, k2, sw, rw;
// pol op = num(q, 17);
pol op = 17*q[0] + 18*q[1] + 19*q[2] + 20*q[3] + 21*q[4] + 22*q[5] + 23*q[6] + 24*q[7] + 25*q[8] + 26*q[9] + 27*q[10] + 28*q[11] + 29*q[12];
// pol alo = lo2(a);   pol ahi = hi2(a);
pol alo = a[0] + 65536*a[1];
pol ahi = a[2] + 65536*a[3];
// pol blo = lo2(b);   pol bhi = hi2(b);
pol blo = b[0] + 65536*b[1];
pol bhi = b[2] + 65536*b[3];
pol ww = q[8] + q[9] + q[10] + q[11] + q[12];
pol hi = q[1] + q[2] + q[3];
pol lw = q[0] + q[8];
pol dq = q[4] + q[5] + q[9] + q[10];
pol dr = q[6] + q[7] + q[11] + q[12];
pol mu = hi + lw;
pol dv = dq + dr;
pol na = (q[1] + q[2] + q[4] + q[6] + q[9] + q[11])*ta;
pol nb = (q[1] + q[4] + q[6] + q[9] + q[11])*tb;
pol eahi = (1 - ww)*ahi + ww*na*%M;
pol ebhi = (1 - ww)*bhi + ww*nb*%M;
// pol malo = mu*lo2(x) + dv*lo2(w);
pol malo = mu*(x[0] + 65536*x[1]) + dv*(w[0] + 65536*w[1]);
// pol mahi = mu*hi2(x) + dv*hi2(w);
pol mahi = mu*(x[2] + 65536*x[3]) + dv*(w[2] + 65536*w[3]);
// pol ylo = lo2(y);   pol yhi = hi2(y);
pol ylo = y[0] + 65536*y[1];
pol yhi = y[2] + 65536*y[3];
pol df = na + nb - 2*na*nb;
pol nf = (hi + dq)*df + dr*na;
// pol vlo = hi*(w[4] + 65536*w[5]) + lw*lo2(w) + dq*lo2(x) + dr*lo2(r);
pol vlo = hi*(w[4] + 65536*w[5]) + lw*(w[0] + 65536*w[1]) + dq*(x[0] + 65536*x[1]) + dr*(r[0] + 65536*r[1]);
// pol vhi = hi*(w[6] + 65536*w[7]) + lw*hi2(w) + dq*hi2(x) + dr*hi2(r);
pol vhi = hi*(w[6] + 65536*w[7]) + lw*(w[2] + 65536*w[3]) + dq*(x[2] + 65536*x[3]) + dr*(r[2] + 65536*r[3]);
// pol zlo = lo2(z);   pol zhi = hi2(z);
pol zlo = z[0] + 65536*z[1];
pol zhi = z[2] + 65536*z[3];
// for i = 0..6: pol c<i> = cl[i] + 65536*ch[i];
pol c0 = cl[0] + 65536*ch[0]; pol c1 = cl[1] + 65536*ch[1]; pol c2 = cl[2] + 65536*ch[2];
pol c3 = cl[3] + 65536*ch[3]; pol c4 = cl[4] + 65536*ch[4]; pol c5 = cl[5] + 65536*ch[5];
pol c6 = cl[6] + 65536*ch[6];
pol s = w[0] + w[1] + w[2] + w[3];
pol on = sel*(1 - dq*zb);
pol clo = zlo;
pol chi = (1 - ww)*zhi + ww*sw*%M;
{sel} in {Bit.V};
// each(sel; q[*]) in BIT;
sel {q[0]} in {Bit.V}; sel {q[1]} in {Bit.V}; sel {q[2]} in {Bit.V}; sel {q[3]} in {Bit.V};
sel {q[4]} in {Bit.V}; sel {q[5]} in {Bit.V}; sel {q[6]} in {Bit.V}; sel {q[7]} in {Bit.V};
sel {q[8]} in {Bit.V}; sel {q[9]} in {Bit.V}; sel {q[10]} in {Bit.V}; sel {q[11]} in {Bit.V};
sel {q[12]} in {Bit.V};
// sel*(sum(q) - 1) = 0;
sel*(q[0] + q[1] + q[2] + q[3] + q[4] + q[5] + q[6] + q[7] + q[8] + q[9] + q[10] + q[11] + q[12] - 1) = 0;
// each(sel; a[*], b[*], x[*], y[*], r[*], w[*], cl[*], ch[*], n[*], g[*],
//   z[*], ra, 2*ra, rb, 2*rb, rw, 2*rw) in R16;
sel {a[0]} in {Range16.V}; sel {a[1]} in {Range16.V}; sel {a[2]} in {Range16.V}; sel {a[3]} in {Range16.V};
sel {b[0]} in {Range16.V}; sel {b[1]} in {Range16.V}; sel {b[2]} in {Range16.V}; sel {b[3]} in {Range16.V};
sel {x[0]} in {Range16.V}; sel {x[1]} in {Range16.V}; sel {x[2]} in {Range16.V}; sel {x[3]} in {Range16.V};
sel {y[0]} in {Range16.V}; sel {y[1]} in {Range16.V}; sel {y[2]} in {Range16.V}; sel {y[3]} in {Range16.V};
sel {r[0]} in {Range16.V}; sel {r[1]} in {Range16.V}; sel {r[2]} in {Range16.V}; sel {r[3]} in {Range16.V};
sel {w[0]} in {Range16.V}; sel {w[1]} in {Range16.V}; sel {w[2]} in {Range16.V}; sel {w[3]} in {Range16.V};
sel {w[4]} in {Range16.V}; sel {w[5]} in {Range16.V}; sel {w[6]} in {Range16.V}; sel {w[7]} in {Range16.V};
sel {cl[0]} in {Range16.V}; sel {cl[1]} in {Range16.V}; sel {cl[2]} in {Range16.V};
sel {cl[3]} in {Range16.V}; sel {cl[4]} in {Range16.V}; sel {cl[5]} in {Range16.V};
sel {cl[6]} in {Range16.V}; sel {ch[0]} in {Range16.V}; sel {ch[1]} in {Range16.V};
sel {ch[2]} in {Range16.V}; sel {ch[3]} in {Range16.V}; sel {ch[4]} in {Range16.V};
sel {ch[5]} in {Range16.V}; sel {ch[6]} in {Range16.V}; sel {n[0]} in {Range16.V}; sel {n[1]} in {Range16.V};
sel {g[0]} in {Range16.V}; sel {g[1]} in {Range16.V}; sel {g[2]} in {Range16.V}; sel {g[3]} in {Range16.V};
sel {z[0]} in {Range16.V}; sel {z[1]} in {Range16.V}; sel {z[2]} in {Range16.V}; sel {z[3]} in {Range16.V};
sel {ra} in {Range16.V}; sel {2*ra} in {Range16.V}; sel {rb} in {Range16.V}; sel {2*rb} in {Range16.V};
sel {rw} in {Range16.V}; sel {2*rw} in {Range16.V};
// each(sel; ta, tb, ka, kb, kn, zb, kg, k1, k2, sw) in BIT;
sel {ta} in {Bit.V}; sel {tb} in {Bit.V}; sel {ka} in {Bit.V}; sel {kb} in {Bit.V}; sel {kn} in {Bit.V};
sel {zb} in {Bit.V}; sel {kg} in {Bit.V}; sel {k1} in {Bit.V}; sel {k2} in {Bit.V}; sel {sw} in {Bit.V};
sel*(ww*a[1] + (1 - ww)*a[3] - 32768*ta - ra) = 0;
sel*(ww*b[1] + (1 - ww)*b[3] - 32768*tb - rb) = 0;
sel*(na*(malo + alo - %K*ka) + (1 - na)*(malo - alo)) = 0;
sel*(na*(mahi + eahi + ka - %K) + (1 - na)*(mahi - eahi)) = 0;
sel*(nb*(ylo + blo - %K*kb) + (1 - nb)*(ylo - blo)) = 0;
sel*(nb*(yhi + ebhi + kb - %K) + (1 - nb)*(yhi - ebhi)) = 0;
// sel*mu*sum(r) = 0;
sel*mu*(r[0] + r[1] + r[2] + r[3]) = 0;
sel*dv*(w[4] + w[5] + w[6] + w[7]) = 0;
sel*(x[0]*y[0] + r[0] - w[0] - 65536*c0) = 0;
sel*(x[0]*y[1] + x[1]*y[0] + r[1] + c0 - w[1] - 65536*c1) = 0;
sel*(x[0]*y[2] + x[1]*y[1] + x[2]*y[0] + r[2] + c1
  - w[2] - 65536*c2) = 0;
sel*(x[0]*y[3] + x[1]*y[2] + x[2]*y[1] + x[3]*y[0] + r[3] + c2
  - w[3] - 65536*c3) = 0;
sel*(x[1]*y[3] + x[2]*y[2] + x[3]*y[1] + c3 - w[4] - 65536*c4) = 0;
sel*(x[2]*y[3] + x[3]*y[2] + c4 - w[5] - 65536*c5) = 0;
sel*(x[3]*y[3] + c5 - w[6] - 65536*c6) = 0;
sel*(c6 - w[7]) = 0;
sel*hi*(1 - kn)*s = 0;
// sel*hi*kn*(s - 1 - lo2(n)) = 0;
sel*hi*kn*(s - 1 - (n[0] + 65536*n[1])) = 0;
// sel*zb*sum(y) = 0;
sel*zb*(y[0] + y[1] + y[2] + y[3]) = 0;
// sel*dv*(1 - zb)*(lo2(r) + lo2(g) + 1 - ylo - %K*kg) = 0;
sel*dv*(1 - zb)*(r[0] + 65536*r[1] + g[0] + 65536*g[1] + 1 - ylo - %K*kg) = 0;
// sel*dv*(1 - zb)*(hi2(r) + hi2(g) + kg - yhi) = 0;
sel*dv*(1 - zb)*(r[2] + 65536*r[3] + g[2] + 65536*g[3] + kg - yhi) = 0;
on*(nf*(vlo + zlo + hi*kn - %K*k1) + (1 - nf)*(zlo - vlo)) = 0;
on*(nf*(vhi + zhi + k1 - %K*k2) + (1 - nf)*(zhi - vhi)) = 0;
sel*dq*zb*(zlo - %M) = 0;
sel*dq*zb*(zhi - %M) = 0;
sel*(z[1] - 32768*sw - rw) = 0;
",
    )
}

/// Main's number of rows in the text.
fn digits(profile: Profile) -> &'static [u8]
    ensures { result.now ≡ main_digits profile }
{
    match profile {
        Profile::Small => b"4096",
        Profile::Wide => b"16384",
    }
}

/// The text of the constraints.
pub fn text(alloc: Global, profile: Profile) -> Result<Vec<u8>, AllocError>
    ensures reads { IfOk result (λ text. Reads text.items (machine profile)) }
    ensures short { IfOk result (λ text. IsShort text.items) }
{
    computed_reads();
    let (before, behind) = parts();
    let mut text = Vec::new(alloc);
    text.extend_from_slice(before)?;
    text.extend_from_slice(digits(profile))?;
    text.extend_from_slice(behind)?;
    Ok(text)
}

/// The constraints as a tree.
pub fn machine(alloc: Global, profile: Profile) -> Result<Pil, AllocError>
    ensures made { IfOk result (λ pil. namespaces pil ≡ machine profile) }
    ensures sound { IfOk result (λ pil. IsSound (namespaces pil)) }
{
    let text = text(alloc, profile)?;
    match read(alloc, &text) {
        Ok(pil) => Ok(pil),
        Err(_) => Err(AllocError),
    }
}
