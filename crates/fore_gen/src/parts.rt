// What generated programs are put together from.
ghost use Rattle.std.specs.Prelude.{◌≡◌};
ghost use Rattle.fore_gen.specs.Programs.{head_text, phase_text, tail_text};
ghost use Rattle.fore_gen.specs.Boxes.{dll_box_text};

use fore_words::Kind;

/// What stands in front of the phases.
pub fn head_text(kind: Kind) -> &'static [u8]
    ensures { result.now ≡ head_text kind }
{
    match kind {
        Kind::ListPhases => {
            b"#include <stdlib.h>
extern int __VERIFIER_nondet_int(void);
struct node { struct node *next; };
int main(void) {
struct node *l, *n, *t;
"
        }
        Kind::DllPhases => {
            b"#include <stdlib.h>
extern int __VERIFIER_nondet_int(void);
struct node { struct node *next; struct node *prev; };
int main(void) {
struct node *l, *n, *p;
"
        }
        Kind::TreePhases => {
            b"#include <stdlib.h>
extern int __VERIFIER_nondet_int(void);
struct tree { struct tree *left; struct tree *right; int kind; };
int main(void) {
struct tree *t, *n;
"
        }
    }
}

/// One phase.
pub fn phase_text(kind: Kind) -> &'static [u8]
    ensures { result.now ≡ phase_text kind }
{
    match kind {
        Kind::ListPhases => {
            b"l = NULL;
while (__VERIFIER_nondet_int()) {
n = malloc(sizeof(struct node));
n->next = l;
l = n;
}
n = NULL;
while (l) {
t = l->next;
free(l);
l = t;
}
t = NULL;
"
        }
        Kind::DllPhases => {
            b"l = malloc(sizeof(struct node));
l->next = NULL;
l->prev = NULL;
while (__VERIFIER_nondet_int()) {
n = malloc(sizeof(struct node));
n->next = NULL;
n->prev = l;
l->next = n;
l = n;
}
n = NULL;
while (l) {
p = l->prev;
free(l);
l = p;
}
p = NULL;
"
        }
        Kind::TreePhases => {
            b"t = NULL;
while (__VERIFIER_nondet_int()) {
n = malloc(sizeof(struct tree));
n->kind = 1;
n->left = t;
n->right = malloc(sizeof(struct tree));
n->right->kind = 0;
n->right->left = NULL;
n->right->right = NULL;
t = n;
}
n = NULL;
while (t) {
n = t->right;
free(n);
n = t->left;
free(t);
t = n;
}
n = NULL;
"
        }
    }
}

/// What stands behind the phases.
pub fn tail_text() -> &'static [u8]
    ensures { result.now ≡ tail_text }
{
    b"return 0;
}
"
}

/// The file of boxes with which generated programs over doubly linked lists are verified: the box `dll`, an edge from a
/// cell to the next one, which leads back by `prev` (CAV 2011, section 2).
pub fn dll_boxes() -> &'static [u8]
    ensures { result.now ≡ dll_box_text }
{
    b"box dll in node out node
root 0 s0
s0 = node(next=s1)
s1 = ref 1
root 1 s0
s0 = node(prev=s1)
s1 = ref 0
end
"
}
