//! Units of C.

/// The rows.
pub const ROWS: &str = r#"# Units of C: numbers, control and calls

row: a unit that gives 7
words: exec seven.c
status: 0
report: result 7

row: a unit that is compiled, and run from the file
before: compile seven.c b.wasm
words: exec b.wasm
status: 0
report: result 7

row: a loop without an end
text a.c: int main(void){for(;;){}}
words: exec a.c --budget 1000
status: 4
report: out of budget

row: a loop without an end and no budget
text a.c: int main(void){for(;;){}}
words: exec a.c --budget 0
status: 4
report: out of budget

row: a unit that gives 7 and no budget
words: exec seven.c --budget 0
status: 4
report: out of budget

row: the least int divided by -1
text a.c: int main(void){return (-2147483647-1)/-1;}
words: exec a.c
status: 1
report: trap overflow

row: the remainder of the least int by -1
text a.c: int main(void){return (-2147483647-1)%-1;}
words: exec a.c
status: 0
report: result 0

row: 1 divided by 0
text a.c: int main(void){return 1/0;}
words: exec a.c
status: 1
report: trap zero

row: a unit that puts what it takes
words: exec echo.c
status: 0
report: result 0
out: hi
took: hi

row: a unit that puts what it takes, and there is nothing
input:
words: exec echo.c
status: 0
report: result 0

row: plain variables make no segment
lines job: module m echo.c / task m main / trace o
words: run job
status: 0
report: result 0
out: hi
took: hi
wrote lines:

row: a call of the null function
text a.c: int main(void){int (*f)(void)=0; return f();}
words: exec a.c
status: 1
report: trap element

row: a call of a function that a variable holds
text a.c: int add(int a,int b){return a+b;} int main(void){int (*f)(int,int)=add; return f(2,3);}
words: exec a.c
status: 0
report: result 5

row: calls without an end
text a.c: int f(int n){return f(n+1);} int main(void){return f(0);}
words: exec a.c
status: 1
report: trap depth

row: 16,384 calls of C are open at once
text a.c: int f(int n){if(n==0) return 0; return f(n-1);} int main(void){return f(16382);}
words: exec a.c
status: 0
report: result 0

row: 16,385 calls of C are open at once
text a.c: int f(int n){if(n==0) return 0; return f(n-1);} int main(void){return f(16383);}
words: exec a.c
status: 1
report: trap depth

row: a unit and more segment memory than 2^24 bytes
words: exec seven.c --memory 16777217
status: 0
report: result 7

row: a unit and more segment memory than can be
words: exec seven.c --memory 1073741825
status: 2
report: usage

row: a loop whose condition stands behind it
text a.c: int main(void){int n=0; do n=n+1; while(n<3); return n;}
words: exec a.c
status: 0
report: result 3

row: a switch goes on behind default
text a.c: enum e{A,B=5,C}; int main(void){enum e v=C; switch(v){case A: return 1; case 6: putchar(120); default: putchar(121); break; case B: putchar(122);} return C;}
words: exec a.c
status: 0
report: result 6
out: xy

# Units of C that are refused

row: a semicolon is missing
text a.c: int main(void){return 7}
words: exec a.c
status: 3
report: refused c syntax 23

row: a name that isn't declared
text a.c: int main(void){return x;}
words: exec a.c
status: 3
report: refused c type 0

row: two equal labels
text a.c: int main(void){switch(0){case 1: case 1: ;} return 0;}
words: exec a.c
status: 3
report: refused c type 0

row: a struct of 64 leaves is assigned
text a.c: struct s{int a[64];}; int main(void){struct s x; struct s y; y=x; return 0;}
words: check a.c
status: 0
report: valid

row: a struct of 65 leaves is assigned
text a.c: struct s{int a[65];}; int main(void){struct s x; struct s y; y=x; return 0;}
words: check a.c
status: 3
report: refused c limit copy

# Objects of C

row: a write past an array's end
words: exec overrun.c
status: 1
report: trap bounds
out: 01234

row: a write past a member that is an array
text a.c: struct s{char a[4];int k;}; int main(void){struct s v; int i; v.k=5; for(i=0;i<8;i=i+1) v.a[i]=1; return v.k;}
words: exec a.c
status: 1
report: trap bounds

row: a read of a freed object whose place another one has
words: exec remakes.c
status: 1
report: trap freed

row: the trace of a read of a freed object
words: run traced-remakes
status: 1
report: trap freed
wrote lines: alloc 1 0 4 / free 1 / alloc 2 0 4 / write 2 0 4 0 4

row: an object is freed twice
text a.c: int main(void){int *p=malloc(8); free(p); free(p); return 0;}
words: exec a.c
status: 1
report: trap freed

row: a pointer into the middle is freed
text a.c: int main(void){int *p=malloc(8); free(p+1); return 0;}
words: exec a.c
status: 1
report: trap whole

row: a variable is freed
text a.c: int main(void){int x; free(&x); return 0;}
words: exec a.c
status: 1
report: trap kind

row: the null pointer is freed
text a.c: int main(void){free(0); return 0;}
words: exec a.c
status: 0
report: result 0

row: 2^32 bytes past an array
text a.c: int main(void){int a[2]; int *p=a; p=p+1073741824; return *p;}
words: exec a.c
status: 1
report: trap bounds

row: more than 2^40 bytes past an array, and back
text a.c: int main(void){int a[2]; int *p=a; p=p+274877906945LL; p=p-274877906945LL; return *p;}
words: exec a.c
status: 1
report: trap invalid

row: 2^40 bytes past an array, and back
text a.c: int main(void){int a[2]; int *p=a; p=p+274877906944LL; p=p-274877906944LL; return *p;}
words: exec a.c
status: 0
report: result 0

row: an object of the loop's last turn, at the place of this turn's
text a.c: int main(void){int *p=0; int i; for(i=0;i<2;i=i+1){int x=i; if(i==0) p=&x; else return *p;} return 9;}
words: exec a.c
status: 1
report: trap freed

row: a member of what the null pointer points to
text a.c: struct s{int k;}; int main(void){struct s *p=0; return p->k;}
words: exec a.c
status: 1
report: trap invalid

row: what the null pointer points to
text a.c: int main(void){int *p=0; return *p;}
words: exec a.c
status: 1
report: trap null

row: pointers to two objects aren't equal
text a.c: int main(void){int a; int b; return &a==&b;}
words: exec a.c
status: 0
report: result 0

row: pointers to two objects have no order
text a.c: int main(void){int a; int b; return &a<&b;}
words: exec a.c
status: 1
report: trap apart

row: a pointer to no bytes isn't null
text a.c: int main(void){int *p=malloc(0); return p==0;}
words: exec a.c
status: 0
report: result 0

row: a read of no bytes
text a.c: int main(void){int *p=malloc(0); return *p;}
words: exec a.c
status: 1
report: trap bounds

row: an array of a function that has returned
text a.c: int *g(void){int a[2]; a[1]=5; return a;} int main(void){int *p=g(); return p[1];}
words: exec a.c
status: 1
report: trap freed

row: an object of each turn of a loop
text a.c: int main(void){int x=0; while(1){int y=x; int *p=&y; *p=*p+1; x=y; if(x==3) break;} return x;}
words: exec a.c
status: 0
report: result 3

row: the trace of an object of each turn of a loop
text a.c: int main(void){int x=0; while(1){int y=x; int *p=&y; *p=*p+1; x=y; if(x==3) break;} return x;}
lines job: module m a.c / task m main / trace o
words: run job
status: 0
report: result 3
wrote lines: alloc 1 0 4 / write 1 0 4 0 4 / read 1 0 4 0 4 / write 1 0 4 0 4 / read 1 0 4 0 4 / free 1 / alloc 2 0 4 / write 2 0 4 0 4 / read 2 0 4 0 4 / write 2 0 4 0 4 / read 2 0 4 0 4 / free 2 / alloc 3 0 4 / write 3 0 4 0 4 / read 3 0 4 0 4 / write 3 0 4 0 4 / read 3 0 4 0 4 / free 3

row: more bytes than a number of them can say
text a.c: int main(void){int *p=calloc(65536,65536); return p==0;}
words: exec a.c
status: 0
report: result 1

row: no object is made for more bytes than a number of them can say
text a.c: int main(void){int *p=calloc(65536,65536); return p==0;}
lines job: module m a.c / task m main / trace o
words: run job
status: 0
report: result 1
wrote lines:

row: the second of two ints that are clear
text a.c: int main(void){int *p=calloc(2,4); return p[1];}
words: exec a.c
status: 0
report: result 0

row: the trace of a read of the second of two ints
text a.c: int main(void){int *p=calloc(2,4); return p[1];}
lines job: module m a.c / task m main / trace o
words: run job
status: 0
report: result 0
wrote lines: alloc 1 0 8 / read 1 0 8 4 4

row: as many objects of 16 bytes as 64 bytes hold
text a.c: int main(void){int *p; int n=0; while((p=malloc(16))!=0) n=n+1; return n;}
words: exec a.c --memory 64
status: 0
report: result 4

row: an array for which there is no room
text a.c: int main(void){int a[100]; return a[0];}
words: exec a.c --memory 64
status: 1
report: trap unreachable

row: a struct is assigned
text a.c: struct s{int a;int b;}; int main(void){struct s x; struct s y; x.a=3; x.b=4; y=x; return y.a*10+y.b;}
words: exec a.c
status: 0
report: result 34

# Objects of C at file scope, and string literals

row: a variable at file scope begins as 0
text a.c: int g; int main(void){return g;}
words: exec a.c
status: 0
report: result 0

row: an array at file scope, and what isn't given of it
text a.c: int g[3]={1,2}; int main(void){return g[0]+g[1]+g[2];}
words: exec a.c
status: 0
report: result 3

row: the bytes of a string literal, and the 0 behind them
text a.c: char *s="ok"; int main(void){putchar(s[0]); putchar(s[1]); return s[2];}
words: exec a.c
status: 0
report: result 0
out: ok

row: a write to a string literal
text a.c: int main(void){char *s="ab"; putchar(s[1]); s[0]=99; return 0;}
words: exec a.c
status: 1
report: trap readonly
out: b

row: a write to an array that a string literal initialises
text a.c: int main(void){char s[3]="ab"; s[0]=99; return s[0];}
words: exec a.c
status: 0
report: result 99"#;
