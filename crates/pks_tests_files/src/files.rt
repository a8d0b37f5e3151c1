//! The files.

pub const ITEMS: &str = "(pks 1)
(domain
  (types t)
  (objects (t a b))
  (predicates (p t) (q t) (r) (s t t))
  (functions (f t) (g t)))
(problem
  (init (kf (q b)) (kf (r)) (kf (q a)) (kw (p b) (r)) (kw (p a)) (kv (g)) (kv (f)) (kx (p a) (p b)) (kx (p a) (r))
    (lcw (q _)) (lcw (p _)) (kf (not (= (f) b))) (lcw (s _ (f))))
  (goal (k (r))))
";

pub const EIGHT: &str = "(pks 1)
(domain
  (types t)
  (objects (t a b))
  (predicates (p t) (q t) (r))
  (functions (f t) (g t))
  (action j1 (params (?x t)) (effects (set (p ?x))) (knows (kf (p ?x))))
  (action j2 (params (?x t)) (effects (assign (f) ?x))
    (knows (kf (= (f) ?x))))
  (action j3 (senses (sense (r) (p a))) (knows (kw (r) (p a))))
  (action j4 (senses (sense-all (p _))) (knows (kw (p a))))
  (action j5 (pre (kw (r))) (effects (when ((r)) (set (p a))))
    (knows (if ((kw (p a))) (kw (p a)))))
  (action j6 (senses (sense-value (g))) (knows (kv (g))))
  (action j7 (effects (assign (f) (g))) (knows (if ((kv (g))) (kv (f)))))
  (action j8 (effects (clear (q _))) (knows (lcw (q _)))))
(problem (goal (kw (r) (p a))))
";
